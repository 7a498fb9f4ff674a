// A command that shows one image.
ghost use Rattle.std.specs.Prelude.{◌≡◌};
ghost use Rattle.md_words.specs.Asks.{image_ask, is_json, is_json_of_image};

use crate::form::ImageForm;

/// Shows what stands on the one image that is named, which is only looked at.
#[derive(Clone, Copy)]
pub enum ImageCommand {
    /// Its superblock, or what stands in its place, though it may be refused.
    Examine { form: ImageForm },
    /// Its bitmap, or the header as it stands.
    ExamineBitmap { form: ImageForm },
    /// Its bad blocks, or the log as it stands.
    ExamineBadblocks { form: ImageForm },
}

impl ImageCommand {
    /// How the report is shown.
    pub(crate) fn form(self) -> ImageForm
        ensures { is_json_of_image result ≡ is_json (image_ask self) }
    {
        match self {
            ImageCommand::Examine { form } => form,
            ImageCommand::ExamineBitmap { form } => form,
            ImageCommand::ExamineBadblocks { form } => form,
        }
    }
}
