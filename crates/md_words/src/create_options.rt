// The options of `create`, as the words give them.

/// What `create` is asked for. The level, the UUID, if one is given, and the name are the words themselves;
/// what they have to be is looked at later.
#[derive(Clone, Copy)]
pub struct CreateOptions<'a> {
    pub level: &'a str,
    pub raid_devices: u32,
    pub uuid: Option<&'a str>,
    pub name: &'a str,
    /// In KiB.
    pub bitmap_chunk: u32,
    /// In KiB.
    pub size: Option<u64>,
    /// In seconds since 1970, as a superblock has it.
    pub time: u64,
    /// The role of the member that is read only where no other can serve.
    pub write_mostly: Option<u32>,
    pub assume_clean: bool,
    /// The report is a JSON object.
    pub json: bool,
}
