// The identifiers of devices.
ghost use Rattle.std.specs.Prelude.{◌≡◌};
ghost use Rattle.md_create.specs.Values.{device_uuid_of};

use itoa::Buffer;
use uuid::Uuid;

/// The version 5 UUID of a device's number in decimal, in the namespace of its array.
#[tactic(auto, unfolding(crate::specs::Values::named_uuid))]
pub fn device_uuid(set_uuid: &Uuid, number: u32) -> Uuid
    ensures { result ≡ device_uuid_of set_uuid.now number }
{
    let mut buffer = Buffer::new();
    Uuid::new_v5(set_uuid, buffer.format(number).as_bytes())
}
