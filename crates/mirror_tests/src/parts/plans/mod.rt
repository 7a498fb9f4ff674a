// Plans of rebuilds, and what the checker says of them.
mod checked_plan;
mod large_tables;
mod small_tables;
mod verdicts;
