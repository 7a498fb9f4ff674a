// From the options of `create` to what the array is made from.
ghost use Rattle.std.specs.Prelude.{◌≡◌, ℕ, IfOk, IfErr, None, Some};
ghost use Rattle.md_words.specs.Asks.{options_of};
ghost use Rattle.md_cli.specs.CreateOptions.{AreParamsOf, bytes_of_kib, is_raid1, create_option_fault, sectors_of_kib, set_name_of};

use crate::create::set_uuid::set_uuid_of;
use md_create::CreateParams;
use md_refusals::OptionFault;
use md_words::CreateOptions;

// The longest name of an array, in bytes.
const NAME_BYTES: usize = 32;

fn is_raid1(level: &str) -> bool
    ensures { result ≡ is_raid1 level.now }
{
    level == "1" || level == "raid1" || level == "mirror"
}

// The name as a superblock has it.
fn set_name_of(name: &str) -> Option<[u8; 32]>
    ensures { result ≡ set_name_of name.now }
{
    if name.len() > NAME_BYTES {
        return None;
    }
    let mut set_name = [0; 32];
    set_name[..name.len()].copy_from_slice(name.as_bytes());
    Some(set_name)
}

pub(crate) fn bytes_of(kib: u32) -> Option<u32>
    ensures { result ≡ bytes_of_kib kib }
{
    kib.checked_mul(1024)
}

fn sectors_of(kib: Option<u64>) -> Option<Option<u64>>
    ensures { result ≡ sectors_of_kib kib }
{
    match kib {
        None => Some(None),
        Some(kib) => match kib.checked_mul(2) {
            Some(sectors) => Some(Some(sectors)),
            None => None,
        },
    }
}

/// What the array is made from, for so many image words, or the first fault of the options. Where they name no UUID one is
/// made of the random bytes.
#[tactic(auto, unfolding(crate::specs::CreateOptions::create_option_fault))]
pub(crate) fn params_of(
    options: &CreateOptions<'_>,
    random: Option<[u8; 16]>,
    count: usize,
) -> Result<CreateParams, OptionFault>
    ensures sound { IfOk result (λ _. create_option_fault (options_of options.now) random count ≡ None) }
    ensures params { IfOk result (AreParamsOf (options_of options.now) random) }
    ensures refused { IfErr result (λ f. create_option_fault (options_of options.now) random count ≡ Some f) }
{
    if !is_raid1(options.level) {
        return Err(OptionFault::BadLevel);
    }
    let set_uuid = set_uuid_of(options.uuid, random).ok_or(OptionFault::BadUuid)?;
    let name = set_name_of(options.name).ok_or(OptionFault::BadName)?;
    if count != options.raid_devices as usize {
        return Err(OptionFault::BadCount);
    }
    let chunk_bytes = bytes_of(options.bitmap_chunk).ok_or(OptionFault::BadChunk)?;
    let size = sectors_of(options.size).ok_or(OptionFault::BadSize)?;
    Ok(CreateParams {
        set_uuid,
        name,
        ctime: options.time,
        size,
        chunk_bytes,
        assume_clean: options.assume_clean,
        write_mostly: options.write_mostly,
    })
}
