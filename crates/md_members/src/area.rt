// Areas of a device, in sectors.
ghost use Rattle.std.specs.Prelude.{◌≤◌, ◌≤ℤ◌, ◌^◌, ◌↔◌, IsTrue};
ghost use Rattle.md_members.specs.Areas.{AreApart, IsSmall, IsWithin, end_of_area};

/// A range of sectors. An offset from the superblock may lead before the device's first sector.
#[derive(Clone, Copy)]
pub struct Area {
    pub start: i64,
    pub sectors: u64,
}

// Whether an area lies on a device of so many sectors.
pub(crate) fn is_within(area: Area, sectors: u64) -> bool
    requires small { IsSmall area }
    requires limit { sectors ≤ 2 ^ 54 }
    ensures { IsTrue result ↔ IsWithin sectors area }
{
    area.start >= 0 && area.start + area.sectors as i64 <= sectors as i64
}

// Whether an area ends before another starts.
fn ends_before(a: Area, b: Area) -> bool
    requires small_a { IsSmall a }
    requires small_b { IsSmall b }
    ensures { IsTrue result ↔ (end_of_area a ≤ℤ b.start) }
{
    a.start + a.sectors as i64 <= b.start
}

// Whether two areas have no sector in common.
pub(crate) fn are_apart(a: Area, b: Area) -> bool
    requires small_a { IsSmall a }
    requires small_b { IsSmall b }
    ensures { IsTrue result ↔ AreApart a b }
{
    if ends_before(a, b) {
        return true;
    }
    ends_before(b, a)
}
