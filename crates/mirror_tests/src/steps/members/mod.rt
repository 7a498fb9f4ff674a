// The calls by which members fail, leave, come back and come in, are admitted, and list what can't be read on them, and how
// each is refused.
mod coming_in;
mod leaving;
mod listing;
mod recovering;
mod returning;
