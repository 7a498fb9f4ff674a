// What holds of every list of passes.
ghost use Rattle.md_copy.specs.PassLaws.Listed.{CopiesAdd, ListsAdd, PassesEnd, PassesGoOn};

/// Of passes one after another: a chunk of the first table was copied exactly where it is served at the end,
/// what is served no more was a slot that failed, and there is at most one pass more than chunks were served.
pub fn passes_end()
    ensures { PassesEnd }
{}

/// What a loop over passes keeps: passes so far go on with any that follow, and each of which slots failed
/// leaves less to read.
pub fn passes_go_on()
    ensures { PassesGoOn }
{}

/// What a loop keeps of the set of chunks that were copied: they are those that the passes copied. At first no
/// more chunks are served than each by each member in sync.
pub fn copies_add()
    ensures { CopiesAdd }
{}

/// How lists grow: slot by slot as chunks are noted as bad, and from pass to pass.
pub fn lists_add()
    ensures { ListsAdd }
{}
