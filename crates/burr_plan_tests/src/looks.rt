//! How often a check looks at two pieces, as it says, and as its tables are asked.

use crate::verdicts::words_of;
use burr_assembly::Assembly;
use burr_blocking::{Blocking, Looks, Pair};
use burr_container::Container;
use burr_verify::verify_counted;
use burr_voxels::{Cell, Direction};
use std::alloc::Global;
use std::cell;
use std::process::Abort;

/// Tables that keep how often they were asked.
#[derive(Drop)]
struct Watched<'a, B: Blocking> {
    tables: &'a B,
    asked: cell::Cell<u64>,
}

impl<B: Blocking> Watched<'_, B> {
    /// They were asked once more.
    fn note(&self) {
        self.asked.set(self.asked.get().wrapping_add(1));
    }
}

impl<'a, B: Blocking> Blocking for Watched<'a, B> {
    ghost subject = { λ w. B.subject w.tables.now };

    ghost IsPair = { λ w. B.IsPair w.tables.now };

    fn assembly(&self) -> &Assembly {
        self.tables.assembly()
    }

    fn pair(&self, piece: u8, other: u8) -> Pair {
        self.tables.pair(piece, other)
    }

    fn pair_blocked(&self, pair: &Pair, displacement: Cell) -> bool {
        self.note();
        self.tables.pair_blocked(pair, displacement)
    }

    fn pair_free(&self, pair: &Pair, displacement: Cell, direction: Direction) -> bool {
        self.note();
        self.tables.pair_free(pair, displacement, direction)
    }
}

/// What is said of a container's plan, and after that how many looks it took: the tables were asked
/// as often.
pub fn words_with_looks<B: Blocking>(
    rt: &impl Abort,
    alloc: Global,
    container: &Container<'_>,
    tables: &B,
) -> String {
    let watched = Watched {
        tables,
        asked: cell::Cell::new(0),
    };
    let mut looks = Looks::new(&watched);
    let verdict = verify_counted(container, &mut looks);
    assert!(rt; watched.asked.get() == looks.count());
    let words = words_of(alloc, verdict).expect(rt, "memory");
    format!(in alloc; "{words} looks {}", looks.count()).expect(rt, "memory")
}

// Plans that are judged, and how often the judgement looks at two pieces.

/// Plans that are judged, with their looks.
pub const LOOKS: &str = "\
duo | duo code
# For two cubes side by side: one pair at one point, and at each of 4,096.
00000003, 0009 10 00000001 12 01 01 00 | accepted looks 1
00000003, 0009 10 00000001 12 00 01 00 | V16 proc 0 pc 5 pieces 0 1 point looks 1
00000005, 000f 22 0000 0fff 06 10 00000001 12 01 01 00 | accepted looks 4096
# a grip of nothing, and no room for the cost
00000000, 0002 11 00 | V14 proc 0 pc 0 looks 0
00000002, 0009 10 00000001 12 01 01 00 | V24 proc 0 pc 8 point looks 1
# another tray
00000004, 000b 10 00000001 12 01 01 13 02 00 | accepted looks 1

duo | duo
# one of them goes out
none | accepted looks 1

duo | choice
# For the choice between two cubes: a pair after each label.
none | accepted looks 2

ring | ring
# For the rod in the ring: three points at the loop and one after it; 256 units; a step that is
# out of reach, where no pair is asked of.
none | accepted looks 4
0001 0000000b > 0001 00000205, 00 00 00 0000000b > 00 00 00 00000205, \
0000 0002 00 > 0000 00ff 00, 00000002 ffff > 000000ff ffff, 01 0002 03 > 01 00ff 03 \
| accepted looks 257
0001 0000000b > 0001 00000207, 00 00 00 0000000b > 00 00 00 00000207, \
0000 0002 00 > 0000 0100 00, 00000002 ffff > 00000100 ffff, 01 0002 03 > 01 0100 03 \
| V18 proc 0 pc 10 point 0 looks 0

cup | cup
# For the dot in the cup: three points where it goes out and three where it goes up; without the
# guards the second point of the second fails.
none | accepted looks 6
01 00000000 0001 ffff 00 > 00 00, 01 ffffffff 0001 ffff 00 > 00 00 \
| V15 proc 0 pc 24 pieces 0 1 point 0 1 looks 5

cup | lift
# For the dot that is lifted by two calls: four points in the procedure, and one after them.
none | accepted looks 5

square | square code
# For four cubes in a square: four pairs, then one in each of two trays; two gripped pieces are no
# pair.
00000008, 001b 10 0000000c 12 02 01 10 00000001 12 01 02 13 01 10 00000004 12 01 02 00 \
| accepted looks 6
# the first pair is in the way, and a later one
00000008, 0007 10 0000000a 11 01 | V15 proc 0 pc 5 pieces 1 0 point looks 1
00000008, 0007 10 00000009 11 01 | V15 proc 0 pc 5 pieces 3 2 point looks 4
# the whole tray, a tray that is in use
00000008, 0008 10 0000000f 12 01 01 | V14 proc 0 pc 5 looks 0
00000008, 0010 10 0000000c 12 02 01 10 00000001 12 01 01 | V17 proc 0 pc 13 looks 4

cup | result
# For the dot that a procedure lifts as far as it then says: three points in the procedure, and
# three of its result after it.
none | accepted looks 6";
