// Which limit the words of `create` pass over. The texts are those of docs/FAULTS.md, which a test compares with them.
use md_images::is_missing;
use md_words::CreateOptions;

const MOST_MEMBERS: u32 = 32;

const MOST_CHUNKS: u64 = 1_048_576;

const MEMBERS: &str = "an array has 1 to 32 members: choose another `--raid-devices`";

const NONE_THERE: &str = "one member has to be there: name an image in the place of a `missing`";

const NO_WRITE_MOSTLY: &str =
    "the role that `--write-mostly` names has no image: the first image has role 0, and a `missing` has none";

const ODD_CHUNK: &str = "a chunk is a power of two: choose another `--bitmap-chunk`";

const NO_SIZE: &str = "the array has no size: choose a `--size` of 1 KiB or more";

const MANY_CHUNKS: &str =
    "an array has at most 1,048,576 chunks: choose a larger `--bitmap-chunk`, or a smaller `--size`";

const SMALL_IMAGE: &str =
    "each image has to hold 1 MiB more than the array: choose a smaller `--size`, or larger images";

/// Where the words alone don't show it: of the images it is the smallest that counts.
pub(crate) const SMALLEST_IMAGE: &str =
    "each image holds more than 1 MiB, and an array has at most 1,048,576 chunks: name larger images, or choose a larger `--bitmap-chunk`";

/// What to do where no array can be made.
pub(crate) fn geometry_advice(options: &CreateOptions<'_>, names: &[&str]) -> &'static str {
    if options.raid_devices == 0 || options.raid_devices > MOST_MEMBERS {
        return MEMBERS;
    }
    if names.iter().all(|name| is_missing(name)) {
        return NONE_THERE;
    }
    if lacks_write_mostly(options, names) {
        return NO_WRITE_MOSTLY;
    }
    if !options.bitmap_chunk.is_power_of_two() {
        return ODD_CHUNK;
    }
    match options.size {
        None => SMALLEST_IMAGE,
        Some(0) => NO_SIZE,
        Some(size) if size > MOST_CHUNKS * options.bitmap_chunk as u64 => MANY_CHUNKS,
        Some(_) => SMALL_IMAGE,
    }
}

// Whether the member that is to be write-mostly has no image.
fn lacks_write_mostly(options: &CreateOptions<'_>, names: &[&str]) -> bool {
    match options.write_mostly {
        None => false,
        Some(role) => match names.get(role as usize) {
            Some(name) => is_missing(name),
            None => true,
        },
    }
}
