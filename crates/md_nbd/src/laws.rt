//! What holds of all messages. The functions do nothing: their contracts are the theorems.

ghost use Rattle.md_nbd.specs.Messages.{AskedNamesFound, BeginsWithOneOption, BeginsWithOneRequest, FindsAskedNames};

/// A stream that begins with a request begins with no other.
pub fn begins_with_one_request()
    ensures { BeginsWithOneRequest }
{}

/// A stream that begins with an option begins with no other.
pub fn begins_with_one_option()
    ensures { BeginsWithOneOption }
{}

/// The name that INFO or GO asks for is found where it is spelled, and nowhere else.
pub fn asked_names()
    ensures finds { FindsAskedNames }
    ensures found { AskedNamesFound }
{}
