//! Instructions and their bytes, labels, and sets of pieces.
use crate::tables::assert_tables;
use burr_code::{Labels, fetch, is_in_set};

const INSTRUCTIONS: [[&str; 4]; 3] = [
    ["code", "@", "@", WORKED],
    ["code", "@", "@", EACH],
    ["code", "@", "@", EDGES],
];

const LIMITS: [[&str; 4]; 3] = [
    ["code", "@", "@", PICKS],
    ["code", "@", "@", OUT_OF_RANGE],
    ["labels", "@", "@", LABELS],
];

#[test]
fn reads_and_spells_code(rt: HostRuntime) {
    assert_tables(&rt, rt.alloc(), &INSTRUCTIONS);
}

#[test]
fn knows_limits_of_code(rt: HostRuntime) {
    assert_tables(&rt, rt.alloc(), &LIMITS);
}

/// Whether the bit of a piece is known, where a piece may have this number.
fn is_bit_known(piece: u8) -> bool {
    match piece {
        1 | 31 => is_in_set(0x8000_0002, piece),
        0..32 => !is_in_set(0x8000_0002, piece),
        _ => true,
    }
}

/// Whether code that begins with this byte is read where there is such an instruction alone.
fn is_first_byte_known(byte: u8) -> bool {
    let code = [byte, 2, 1, 1, 1, 1, 1, 1, 1];
    let is_first = matches!(byte, 0x00..=0x06 | 0x10..=0x13 | 0x20..=0x25);
    is_first || fetch(&code, 0).is_none()
}

#[test]
fn knows_bits_and_first_bytes(rt: HostRuntime) {
    for byte in 0..=255u8 {
        let is_known = is_bit_known(byte) && is_first_byte_known(byte);
        assert!(rt; is_known, "{byte}");
    }
}

#[test]
fn the_same_labels_are_equal(rt: HostRuntime) {
    let one = Labels::new(&[0, 1, 0, 2]);
    assert!(rt; one == Labels::new(&[0, 1, 0, 2]));
    assert!(rt; one != Labels::new(&[0, 2, 0, 1]));
    assert!(rt; one != Labels::new(&[0, 1, 0, 2, 0, 3]));
}

/// Worked instructions, alone and in turn.
const WORKED: &str = "\
10 00 00 00 01|Grip(1)
12 01 01|Aside(MinusX, 1)
22 00 00 00 02|Ask(0, 2)
01 ff ff|Push(-1)
23 03 00 01 ff fe 01 00|Pick(Labels { bytes: [0, 1, 255, 254, 1, 0] })
10 00 00 00 01 12 01 01 00|Grip(1) Aside(MinusX, 1) Halt
; where there is no code there are no instructions
|
; a question and a loop of steps
10 00 00 00 01 22 00 00 00 02 03 00 02 00 03 01 21 01 00 02 12 04 01 00 11 04 20 00 01|\
Grip(1) Ask(0, 2) Store(0) Load(0) Store(1) Down(1, 2) Aside(PlusZ, 1) Halt Step(PlusZ) Jump(1)
; a counted step
01 00 02 03 00 11 04 21 00 00 01|Push(2) Store(0) Step(PlusZ) Down(0, 1)
";

/// Each instruction but a pick.
const EACH: &str = "\
00|Halt
01 80 01|Push(-32767)
02 07|Load(7)
03 06|Store(6)
04|Add
05|Sub
06|Drop
10 81 02 03 04|Grip(2164392708)
11 03|Step(MinusY)
12 04 1f|Aside(PlusZ, 31)
13 1e|Tray(30)
20 01 02|Jump(258)
21 05 ff fe|Down(5, 65534)
22 ff fe 01 2c|Ask(-2, 300)
24 ff|Call(255)
25|Ret
";

/// Instructions with operands at the edges.
const EDGES: &str = "\
01 80 01|Push(-32767)
01 7f ff|Push(32767)
02 07|Load(7)
03 07|Store(7)
04|Add
05|Sub
06|Drop
10 81 02 03 04|Grip(2164392708)
11 05|Step(MinusZ)
12 05 1f|Aside(MinusZ, 31)
13 1f|Tray(31)
20 ff fe|Jump(65534)
21 07 01 02|Down(7, 258)
22 80 01 80 01|Ask(-32767, -32767)
22 ff ff 7f ff|Ask(-1, 32767)
24 ff|Call(255)
25|Ret
";

/// Picks of none to nine labels: two to eight may be offered.
const PICKS: &str = "\
23 00|nothing
23 01 00 01|nothing
23 02 00 01 02 00|Pick(Labels { bytes: [0, 1, 2, 0] })
23 03 00 01 02 00 03 04|Pick(Labels { bytes: [0, 1, 2, 0, 3, 4] })
23 04 00 01 02 00 03 04 05 00|Pick(Labels { bytes: [0, 1, 2, 0, 3, 4, 5, 0] })
23 05 00 01 02 00 03 04 05 00 06 07|Pick(Labels { bytes: [0, 1, 2, 0, 3, 4, 5, 0, 6, 7] })
23 06 00 01 02 00 03 04 05 00 06 07 08 00|\
Pick(Labels { bytes: [0, 1, 2, 0, 3, 4, 5, 0, 6, 7, 8, 0] })
23 07 00 01 02 00 03 04 05 00 06 07 08 00 09 0a|\
Pick(Labels { bytes: [0, 1, 2, 0, 3, 4, 5, 0, 6, 7, 8, 0, 9, 10] })
23 08 00 01 02 00 03 04 05 00 06 07 08 00 09 0a 0b 00|\
Pick(Labels { bytes: [0, 1, 2, 0, 3, 4, 5, 0, 6, 7, 8, 0, 9, 10, 11, 0] })
23 09 00 01 02 00 03 04 05 00 06 07 08 00 09 0a 0b 00 0c 0d|nothing
";

/// Instructions with operands out of range.
const OUT_OF_RANGE: &str = "\
01 80 00|nothing
02 08|nothing
03 08|nothing
10 00 00 00 00|nothing
11 06|nothing
12 06 01|nothing
12 00 20|nothing
13 20|nothing
21 08 00 00|nothing
22 80 00 00 00|nothing
22 00 01 00 00|nothing
22 00 00 ff ff|nothing
23 01 00 01|nothing
23 09 00 01 00 02 00 03 00 04 00 05 00 06 00 07 00 08 00 09|nothing
";

/// Bytes, how many labels they are, and the labels by number, with one more number than there are.
const LABELS: &str = "\
00 01 ff fe 01 00|3: 1 65534 256 -
|none
<1 00 >|none
<2 00 >|none
<3 00 >|none
<4 00 >|2: 0 0 -
<5 00 >|none
<6 00 >|3: 0 0 0 -
<7 00 >|none
<8 00 >|4: 0 0 0 0 -
<9 00 >|none
<10 00 >|5: 0 0 0 0 0 -
<11 00 >|none
<12 00 >|6: 0 0 0 0 0 0 -
<13 00 >|none
<14 00 >|7: 0 0 0 0 0 0 0 -
<15 00 >|none
<16 00 >|8: 0 0 0 0 0 0 0 0 -
<17 00 >|none
<18 00 >|none
<19 00 >|none
";
