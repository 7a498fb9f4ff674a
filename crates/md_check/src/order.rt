// What a member's worker has to know of it.
ghost use Rattle.std.specs.Prelude.{◌≡◌, ◌<◌, ℕ, IfOk, Some, is_some, length, slice_get, true};
ghost use Rattle.md_assembly.specs.States.{is_in_sync, is_in_sync_as};
ghost use Rattle.md_kept_members.specs.View.{MemberView};
ghost use Rattle.md_state.specs.Members.{IsMember};
ghost use Rattle.md_check.specs.Plans.{AreOrders, IsOrderFor};

use crate::listed::listed_from;
use md_array::Mirror;
use md_assembly::MemberState;
use md_badblocks::BadSet;
use md_device::Device;
use std::alloc::{AllocError, Global};

/// What a member's worker has to know of it, and its buffer.
#[derive(Drop)]
pub(crate) struct Order {
    /// The member's role, where it is in sync. No other is read.
    pub(crate) role: Option<u8>,
    /// The sector of the device at which the member's data start.
    pub(crate) offset: u64,
    /// The sectors of the array that the member lists.
    pub(crate) listed: BadSet,
    pub(crate) bytes: Vec<u8>,
}

/// An order for each member, with a buffer of so many bytes.
pub(crate) fn orders_for<D: Device + Drop>(
    alloc: Global,
    mirror: &Mirror<D>,
    room: usize,
) -> Result<Vec<Order>, AllocError>
    ensures { IfOk result (λ orders. AreOrders mirror.now.array room orders.items) }
{
    let mut orders = Vec::with_capacity(alloc, mirror.members())?;
    for k in 0..mirror.members() {
        orders.push_reserved(order_for(alloc, mirror, k, room)?);
    }
    Ok(orders)
}

// The order for member k's worker.
fn order_for<D: Device + Drop>(
    alloc: Global,
    mirror: &Mirror<D>,
    k: usize,
    room: usize,
) -> Result<Order, AllocError>
    requires within { k < length mirror.now.array.members }
    ensures { IfOk result (λ order. (m : MemberView) → IsMember mirror.now.array k m → IsOrderFor m room order) }
{
    let offset = mirror.own(k).data_offset;
    let listed = listed_from(alloc, mirror.bad(k), offset)?;
    let bytes = vec![in alloc; 0u8; room]?;
    Ok(Order {
        role: role_to_read(mirror.state(k)),
        offset,
        listed,
        bytes,
    })
}

// The role of a member in sync, as a gate is told it: roles are below 32.
fn role_to_read(state: MemberState) -> Option<u8>
    ensures reads { is_some result ≡ is_in_sync state }
    ensures role { (role : ℕ) → is_in_sync_as role state ≡ true → role < 256 → result ≡ Some role }
{
    match state {
        MemberState::InSync(role) => Some(role.min(255) as u8),
        _ => None,
    }
}
