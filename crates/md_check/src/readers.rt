// Each device goes into a reader, and comes back.
ghost use Rattle.std.specs.Prelude.{◌≡◌, ◌+◌, ◌<◌, ◌≤◌, [], ℕ, length, map, slice_index_or, vec_capacity, vec_len};
ghost use Rattle.md_check.specs.Plans.{IsReaderOf};

use crate::order::Order;
use crate::reader::Reader;

/// Each device goes into a reader, by its order. It takes no memory.
pub(crate) fn readers_of<D>(
    devices: &mut Vec<D>,
    orders: &mut Vec<Order>,
    readers: &mut Vec<Reader<D>>,
)
    requires room { (readers.old.items ≡ []) × (vec_len orders.old ≤ vec_capacity readers.old) }
    requires as_many { length devices.old.items ≡ length orders.old.items }
    ensures readers { (k : ℕ) (order device reader : _) → k < length orders.old.items
        → IsReaderOf (slice_index_or orders.old.items k order) (slice_index_or devices.old.items k device) (slice_index_or readers.new.items k reader) }
    ensures none { devices.new.items ≡ [] }
    ensures len { length readers.new.items ≡ length orders.old.items }
    ensures capacity { vec_capacity devices.new ≡ vec_capacity devices.old }
{
    for _k in 0..orders.len() {
        let order = orders.remove(0);
        let device = devices.remove(0);
        readers.push_reserved(reader_of(device, order));
    }
}

// The reader of a device whose worker has this order.
fn reader_of<D>(device: D, order: Order) -> Reader<D>
    ensures { IsReaderOf order device result }
{
    let Order {
        role,
        offset,
        listed,
        bytes,
    } = order;
    Reader {
        device,
        role,
        offset,
        listed,
        bytes,
        alike: false,
        missed: None,
    }
}

/// The devices come back from their readers, in their order. It takes no memory.
pub(crate) fn leave_readers<D>(readers: &mut Vec<Reader<D>>, devices: &mut Vec<D>)
    requires room { (devices.old.items ≡ []) × (vec_len readers.old ≤ vec_capacity devices.old) }
    ensures { devices.new.items ≡ map (λ reader. reader.device) readers.old.items }
{
    for _k in 0..readers.len() {
        devices.push_reserved(device_of(readers.remove(0)));
    }
}

// The device in a reader.
fn device_of<D>(reader: Reader<D>) -> D
    ensures { result ≡ reader.device }
{
    let Reader {
        device,
        role: _,
        offset: _,
        listed: _,
        bytes: _,
        alike: _,
        missed: _,
    } = reader;
    device
}
