// How reports are shown.
ghost use Rattle.std.specs.Prelude.{◌≡◌};
ghost use Rattle.md_words.specs.Asks.{is_json_of_check, is_json_of_detail, is_json_of_image, is_json_of_rebuild};

/// How the report on one image is shown.
#[derive(Clone, Copy)]
pub enum ImageForm {
    /// As text.
    Text,
    /// What stands there, though it may be refused, as text.
    Raw,
    /// As a JSON object.
    Json,
    /// What stands there, though it may be refused, as a JSON object.
    RawJson,
}

impl ImageForm {
    /// Whether it is a JSON object.
    pub(crate) fn is_json(self) -> bool
        ensures { result ≡ is_json_of_image self }
    {
        match self {
            ImageForm::Json | ImageForm::RawJson => true,
            ImageForm::Text | ImageForm::Raw => false,
        }
    }
}

/// How the report of a check is shown.
#[derive(Clone, Copy)]
pub enum CheckForm {
    /// In how many chunks members differ, as text.
    Count,
    /// Which these are too, as text.
    List,
    /// Both as a JSON object.
    Json,
}

impl CheckForm {
    /// Whether it is a JSON object.
    pub(crate) fn is_json(self) -> bool
        ensures { result ≡ is_json_of_check self }
    {
        match self {
            CheckForm::Json => true,
            CheckForm::Count | CheckForm::List => false,
        }
    }
}

/// How an array is shown in detail.
#[derive(Clone, Copy)]
pub enum DetailForm {
    /// As text.
    Text,
    /// As text, with a line over those of the members, and the images that they are on.
    Verbose,
    /// As a JSON object.
    Json,
}

impl DetailForm {
    /// Whether it is a JSON object.
    pub(crate) fn is_json(self) -> bool
        ensures { result ≡ is_json_of_detail self }
    {
        match self {
            DetailForm::Json => true,
            DetailForm::Text | DetailForm::Verbose => false,
        }
    }
}

/// How the report of a rebuild is shown.
#[derive(Clone, Copy)]
pub enum RebuildForm {
    /// The plan of each pass, and then a line, as text.
    Plans,
    /// The line alone.
    Line,
    /// As a JSON object.
    Json,
}

impl RebuildForm {
    /// Whether it is a JSON object.
    pub(crate) fn is_json(self) -> bool
        ensures { result ≡ is_json_of_rebuild self }
    {
        match self {
            RebuildForm::Json => true,
            RebuildForm::Plans | RebuildForm::Line => false,
        }
    }
}
