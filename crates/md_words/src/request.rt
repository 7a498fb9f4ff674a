// What the words ask for.
use crate::command::Command;

/// A command, the image words, and what holds of any command.
#[derive(Drop)]
pub struct Request<'a> {
    pub command: Command<'a>,
    pub images: Vec<&'a str>,
    /// The maps of images that lack sectors, each as `IMAGE=FILE`.
    pub maps: Vec<&'a str>,
    /// The file that is to be made, a map of what is read.
    pub map_out: Option<&'a str>,
    /// The file that is to be made of what is put out.
    pub output: Option<&'a str>,
    /// The kind of the bitmap that the members get; by a command that opens the array, only in memory, and where they have none.
    pub bitmap: Option<&'a str>,
    /// The image that counts as a device of the array though its superblock can't be read, as `IMAGE=NUMBER`.
    pub data_of: Option<&'a str>,
    /// A read that was interrupted goes on, into the files that it made.
    pub resume: bool,
    /// More is to be said of a refusal.
    pub verbose: bool,
    /// Nothing is to be asked.
    pub run: bool,
}
