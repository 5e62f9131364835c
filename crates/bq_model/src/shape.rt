// The sizes of a lane, within their limits.
ghost use Rattle.std.specs.Prelude.{◌≡◌, ◌+◌, ◌*◌, ◌^◌, ◌<◌, ◌↔◌, IsSome, IfSome};
ghost use Rattle.bq_model.specs.Limits.{Within, InLimits};

/// The most callers of a lane.
const MAX_CALLERS: u32 = 17;
/// The most operations of a batch, and the most items of a caller that may be queued.
const MAX_BATCH: u32 = 256;
/// The most operations of a caller.
const MAX_ALLOWANCE: u64 = 1 << 38;
/// Counts of operations are below this.
const COUNTS: u64 = 1 << 44;

/// What a lane is made for.
#[derive(Clone, Copy, Debug, PartialEq, Eq, Hash)]
pub struct Shape {
    callers: u32,
    batch: u32,
    room: u32,
    allowance: u64,
    first_count: u64,
    ghost some_callers: { Within 17 callers },
    ghost some_batch: { Within 256 batch },
    ghost some_room: { Within 256 room },
    ghost some_allowance: { Within (2 ^ 38) allowance },
    ghost counts_fit: { first_count + callers * allowance < 2 ^ 44 },
}

impl Shape {
    /// A lane for `callers` callers, with batches of at most `batch` operations, at most `room` queued items and
    /// `allowance` operations for each caller, whose counts begin at `first_count`.
    pub fn new(
        callers: u32,
        batch: u32,
        room: u32,
        allowance: u64,
        first_count: u64,
    ) -> Option<Shape>
        ensures in_limits { IsSome result ↔ InLimits callers batch room allowance first_count }
        ensures callers { IfSome result (λ s. s.callers ≡ callers) }
        ensures batch { IfSome result (λ s. s.batch ≡ batch) }
        ensures room { IfSome result (λ s. s.room ≡ room) }
        ensures allowance { IfSome result (λ s. s.allowance ≡ allowance) }
        ensures first_count { IfSome result (λ s. s.first_count ≡ first_count) }
    {
        if callers == 0
            || callers > MAX_CALLERS
            || batch == 0
            || batch > MAX_BATCH
            || room == 0
            || room > MAX_BATCH
            || allowance == 0
            || allowance > MAX_ALLOWANCE
            || first_count >= COUNTS
        {
            return None;
        }
        if first_count + u64::from(callers) * allowance >= COUNTS {
            return None;
        }
        Some(Shape {
            callers,
            batch,
            room,
            allowance,
            first_count,
        })
    }

    /// How many callers there are.
    pub fn callers(&self) -> u32
        ensures { result ≡ self.now.callers }
    {
        self.callers
    }

    /// The most operations of a batch.
    pub fn batch(&self) -> u32
        ensures { result ≡ self.now.batch }
    {
        self.batch
    }

    /// How many items of one caller may be queued.
    pub fn room(&self) -> u32
        ensures { result ≡ self.now.room }
    {
        self.room
    }

    /// How many operations one caller may make.
    pub fn allowance(&self) -> u64
        ensures { result ≡ self.now.allowance }
    {
        self.allowance
    }

    /// Where the counts of operations begin.
    pub fn first_count(&self) -> u64
        ensures { result ≡ self.now.first_count }
    {
        self.first_count
    }
}

#[cfg(test)]
mod tests {
    use super::*;

    #[test]
    fn shapes_end_at_their_limits(rt: HostRuntime) {
        let most = 1 << 38;
        let cases = [
            ((17, 256, 256, most, 0), true),
            ((18, 256, 256, most, 0), false),
            ((17, 257, 256, most, 0), false),
            ((17, 256, 257, most, 0), false),
            ((17, 256, 256, most + 1, 0), false),
            ((0, 1, 1, 1, 0), false),
            ((1, 0, 1, 1, 0), false),
            ((1, 1, 0, 1, 0), false),
            ((1, 1, 1, 0, 0), false),
            ((1, 1, 1, 1, (1 << 44) - 2), true),
            ((1, 1, 1, 1, (1 << 44) - 1), false),
            ((1, 1, 1, 1, u64::MAX), false),
        ];
        for ((callers, batch, room, allowance, first), fits) in cases {
            let shape = Shape::new(callers, batch, room, allowance, first);
            assert_eq!(rt;
                shape.is_some(),
                fits,
                "{callers} {batch} {room} {allowance} {first}"
            );
        }
    }
}
