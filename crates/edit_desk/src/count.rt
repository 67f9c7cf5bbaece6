//! Counts that stand still at the last number of 64 bits, as those of failed calls and of lines.
ghost use Rattle.std.specs.Prelude.{◌≡◌};
ghost use Rattle.edit_desk.specs.Desk.{raised};

/// Raises the count by 1. At 2^64 - 1, the last number of 64 bits, it leaves the count as it is. Desks and
/// printers count by it what failed, and the printer in memory each of its lines, too.
pub fn raise_count(count: &mut u64)
    ensures { count.new ≡ raised count.old }
{
    *count = count.saturating_add(1);
}
