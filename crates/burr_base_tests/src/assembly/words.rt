//! Lines of no form, and words that a line may have.

/// A number of a line of the duo, and what may not stand in its place.
pub const FORMLESS: &str = "\
1 |A1 { line: 1 }
1  |A1 { line: 1 }
1 #|A1 { line: 1 }
1 layer|A1 { line: 1 }
1 end|A1 { line: 1 }
1 shape cube|A1 { line: 1 }
1 piece A cube +x+y+z 0 0 0|A1 { line: 1 }
1 assembly|A1 { line: 1 }
1 assembly |A1 { line: 1 }
1 assembly  duo|A1 { line: 1 }
1  assembly duo|A1 { line: 1 }
1 assembly duo |A1 { line: 1 }
1 assembly duo duo|A1 { line: 1 }
1 Assembly duo|A1 { line: 1 }
1 assemblyduo|A1 { line: 1 }
1 assembly\tduo|A1 { line: 1 }
1 assembly duo\r|A1 { line: 1 }
1 assembly d\u{e4}o|A1 { line: 1 }
1 assembly d\0o|A1 { line: 1 }
1 assembly d\x7fo|A1 { line: 1 }
1 \u{feff}assembly duo|A1 { line: 1 }
2 |A1 { line: 2 }
2  |A1 { line: 2 }
2 .|A1 { line: 2 }
2 layer|A1 { line: 2 }
2 end|A1 { line: 2 }
2 assembly duo|A1 { line: 2 }
2 assembly 1|A1 { line: 2 }
2 piece A cube +x+y+z 0 0 0|A1 { line: 2 }
2 shape|A1 { line: 2 }
2 shape |A1 { line: 2 }
2 shape  cube|A1 { line: 2 }
2  shape cube|A1 { line: 2 }
2 shape cube |A1 { line: 2 }
2 shape cube cube|A1 { line: 2 }
2 Shape cube|A1 { line: 2 }
2 shape\tcube|A1 { line: 2 }
2 shape cube\r|A1 { line: 2 }
2 shape c\u{fc}be|A1 { line: 2 }
2 shape cub\0|A1 { line: 2 }
3 |A1 { line: 3 }
3  |A1 { line: 3 }
3 #|A1 { line: 3 }
3 .|A1 { line: 3 }
3 end|A1 { line: 3 }
3 assembly duo|A1 { line: 3 }
3 shape rod|A1 { line: 3 }
3 piece A cube +x+y+z 0 0 0|A1 { line: 3 }
3 Layer|A1 { line: 3 }
3 layers|A1 { line: 3 }
3 layer |A1 { line: 3 }
3  layer|A1 { line: 3 }
3 layer 0|A1 { line: 3 }
3 layer\r|A1 { line: 3 }
3 layer\0|A1 { line: 3 }
3 lay\u{e9}r|A1 { line: 3 }
4 |A1 { line: 4 }
4  |A1 { line: 4 }
4  #|A1 { line: 4 }
4 # |A1 { line: 4 }
4 # #|A1 { line: 4 }
4 #\t|A1 { line: 4 }
4 #\r|A1 { line: 4 }
4 #\0|A1 { line: 4 }
4 #\u{e9}|A1 { line: 4 }
4 x|A1 { line: 4 }
4 0|A1 { line: 4 }
4 #,#|A1 { line: 4 }
4 assembly duo|A1 { line: 4 }
4 shape rod|A1 { line: 4 }
4 piece A cube +x+y+z 0 0 0|A1 { line: 4 }
5 |A1 { line: 5 }
5  |A1 { line: 5 }
5 End|A1 { line: 5 }
5 ends|A1 { line: 5 }
5 en|A1 { line: 5 }
5 end |A1 { line: 5 }
5  end|A1 { line: 5 }
5 end cube|A1 { line: 5 }
5 end\r|A1 { line: 5 }
5 end\0|A1 { line: 5 }
5 \u{e9}nd|A1 { line: 5 }
5 assembly duo|A1 { line: 5 }
5 shape rod|A1 { line: 5 }
5 piece A cube +x+y+z 0 0 0|A1 { line: 5 }
6 |A1 { line: 6 }
6  |A1 { line: 6 }
6 layer|A1 { line: 6 }
6 #|A1 { line: 6 }
6 end|A1 { line: 6 }
6 assembly duo|A1 { line: 6 }
6 assembly 1|A1 { line: 6 }
6 piece|A1 { line: 6 }
6 piece |A1 { line: 6 }
6 piece A|A1 { line: 6 }
6 piece A cube|A1 { line: 6 }
6 piece A cube +x+y+z|A1 { line: 6 }
6 piece A cube +x+y+z 0|A1 { line: 6 }
6 piece A cube +x+y+z 0 0|A1 { line: 6 }
6 piece A cube +x+y+z 0 0 |A1 { line: 6 }
6 piece A cube +x+y+z 0 0 0 0|A1 { line: 6 }
6 piece A cube +x+y+z 0 0 0 |A1 { line: 6 }
6  piece A cube +x+y+z 0 0 0|A1 { line: 6 }
6 piece  A cube +x+y+z 0 0 0|A1 { line: 6 }
6 piece A  cube +x+y+z 0 0 0|A1 { line: 6 }
6 piece A cube  +x+y+z 0 0 0|A1 { line: 6 }
6 piece A cube +x+y+z  0 0 0|A1 { line: 6 }
6 piece A cube +x+y+z 0  0 0|A1 { line: 6 }
6 piece A cube +x+y+z 0 0  0|A1 { line: 6 }
6 Piece A cube +x+y+z 0 0 0|A1 { line: 6 }
6 piece A cube +x +y +z 0 0 0|A1 { line: 6 }
6 piece A cube +x+y+z 0,0,0|A1 { line: 6 }
6 piece A cube +x+y+z 0 0 0\r|A1 { line: 6 }
6 piece A cube +x+y+z 0 0 0\0|A1 { line: 6 }
6 piece\tA\tcube\t+x+y+z\t0\t0\t0|A1 { line: 6 }
6 piece A cube +x+y+\u{17e} 0 0 0|A1 { line: 6 }
6 piece \u{c4} cube +x+y+z 0 0 0|A1 { line: 6 }
6 piece A c\u{fc}be +x+y+z 0 0 0|A1 { line: 6 }
7 |A1 { line: 7 }
7  |A1 { line: 7 }
7 layer|A1 { line: 7 }
7 #|A1 { line: 7 }
7 .|A1 { line: 7 }
7 end|A1 { line: 7 }
7 assembly duo|A1 { line: 7 }
7 shape rod|A1 { line: 7 }
7 shape cube|A1 { line: 7 }
7 shape 1|A1 { line: 7 }
7 piece 1 block -x+y+z 99 0|A1 { line: 7 }
7 piece 1 block -x+y+z 99 0 0 0|A1 { line: 7 }
7 piece 1 block -x+y+z 99 0 x|A1 { line: 7 }
";

/// Words in the place of a coordinate, and what is wrong with them.
pub const NUMBERS: &str = "\
0|right
1|right
-1|right
9|right
10|right
-10|right
63|right
64|right
-63|right
-64|right
; also numbers that wrap round to a small one in 8, 16, 32, 64 or 128 bits
65|A5 { line: 7 }
-65|A5 { line: 7 }
100|A5 { line: 7 }
-100|A5 { line: 7 }
640|A5 { line: 7 }
-640|A5 { line: 7 }
128|A5 { line: 7 }
-128|A5 { line: 7 }
256|A5 { line: 7 }
257|A5 { line: 7 }
-256|A5 { line: 7 }
65536|A5 { line: 7 }
65537|A5 { line: 7 }
2147483647|A5 { line: 7 }
2147483648|A5 { line: 7 }
-2147483648|A5 { line: 7 }
-2147483649|A5 { line: 7 }
4294967296|A5 { line: 7 }
4294967297|A5 { line: 7 }
-4294967295|A5 { line: 7 }
9223372036854775808|A5 { line: 7 }
-9223372036854775809|A5 { line: 7 }
18446744073709551616|A5 { line: 7 }
18446744073709551617|A5 { line: 7 }
-18446744073709551615|A5 { line: 7 }
99999999999999999999|A5 { line: 7 }
-99999999999999999999|A5 { line: 7 }
340282366920938463463374607431768211456|A5 { line: 7 }
-340282366920938463463374607431768211455|A5 { line: 7 }
100000000000000000000000000000000000000000000000000000000000000000000000000000000000000000\
0000000001|A5 { line: 7 }
|A1 { line: 7 }
-|A1 { line: 7 }
-0|A1 { line: 7 }
+1|A1 { line: 7 }
01|A1 { line: 7 }
1.0|A1 { line: 7 }
a|A1 { line: 7 }
\u{661}|A1 { line: 7 }
";

/// Positions by more than one of their coordinates.
pub const POSITIONS: &str = "\
64 64 64|right
-64 -64 -64|right
65 0 -0|A1 { line: 7 }
-0 65 0|A1 { line: 7 }
65 -65 65|A5 { line: 7 }
";

/// Words of 1 to 32 letters, and longer ones, in lines of the duo.
pub const LONG_WORDS: &str = "\
1 assembly <1 n>|right
1 assembly <2 n>|right
1 assembly <31 n>|right
1 assembly <32 n>|right
1 assembly <33 n>|A2 { line: 1 }
1 assembly <34 n>|A2 { line: 1 }
1 assembly <64 n>|A2 { line: 1 }
1 assembly <1000 n>|A2 { line: 1 }
5 end/shape <1 n>/layer/#/end|right
5 end/shape <2 n>/layer/#/end|right
5 end/shape <31 n>/layer/#/end|right
5 end/shape <32 n>/layer/#/end|right
5 end/shape <33 n>/layer/#/end|A2 { line: 6 }
5 end/shape <34 n>/layer/#/end|A2 { line: 6 }
5 end/shape <64 n>/layer/#/end|A2 { line: 6 }
5 end/shape <1000 n>/layer/#/end|A2 { line: 6 }
7 piece <1 n> cube +x+y+z 1 0 0|right
7 piece <2 n> cube +x+y+z 1 0 0|right
7 piece <31 n> cube +x+y+z 1 0 0|right
7 piece <32 n> cube +x+y+z 1 0 0|right
7 piece <33 n> cube +x+y+z 1 0 0|A2 { line: 7 }
7 piece <34 n> cube +x+y+z 1 0 0|A2 { line: 7 }
7 piece <64 n> cube +x+y+z 1 0 0|A2 { line: 7 }
7 piece <1000 n> cube +x+y+z 1 0 0|A2 { line: 7 }
; words that are judged otherwise
7 piece B <1 n> +x+y+z 1 0 0|A6 { line: 7 }
7 piece B <2 n> +x+y+z 1 0 0|A6 { line: 7 }
7 piece B <31 n> +x+y+z 1 0 0|A6 { line: 7 }
7 piece B <32 n> +x+y+z 1 0 0|A6 { line: 7 }
7 piece B <33 n> +x+y+z 1 0 0|A6 { line: 7 }
7 piece B <34 n> +x+y+z 1 0 0|A6 { line: 7 }
7 piece B <64 n> +x+y+z 1 0 0|A6 { line: 7 }
7 piece B <1000 n> +x+y+z 1 0 0|A6 { line: 7 }
7 piece B cube <1 n> 1 0 0|A4 { line: 7 }
7 piece B cube <2 n> 1 0 0|A4 { line: 7 }
7 piece B cube <31 n> 1 0 0|A4 { line: 7 }
7 piece B cube <32 n> 1 0 0|A4 { line: 7 }
7 piece B cube <33 n> 1 0 0|A4 { line: 7 }
7 piece B cube <34 n> 1 0 0|A4 { line: 7 }
7 piece B cube <64 n> 1 0 0|A4 { line: 7 }
7 piece B cube <1000 n> 1 0 0|A4 { line: 7 }
";

// Each fault with its line, and which comes first on a line.

/// The number of a line of the duo, what stands in its place, and the fault.
pub const CHANGES: &str = "\
; names of the assembly and of shapes
1 assembly 1|A2 { line: 1 }
1 assembly -|A2 { line: 1 }
1 assembly cube|right
1 assembly A|right
2 shape 1|A2 { line: 2 }
2 shape #|A2 { line: 2 }
2 shape Cube|A6 { line: 6 }
5 end/shape cube|A2 { line: 6 }
5 end/shape Cube/layer/#/end|right
5 end/shape duo/layer/#/end|right
; a piece's name
7 piece a cube +x+y+z 1 0 0|right
7 piece cube cube +x+y+z 1 0 0|right
7 piece duo cube +x+y+z 1 0 0|right
7 piece piece cube +x+y+z 1 0 0|right
7 piece A cube +x+y+z 1 0 0|A2 { line: 7 }
7 piece 1 cube +x+y+z 1 0 0|A2 { line: 7 }
7 piece + cube +x+y+z 1 0 0|A2 { line: 7 }
; no such shape, also by a word that is no name
7 piece B block +x+y+z 1 0 0|A6 { line: 7 }
7 piece B Cube +x+y+z 1 0 0|A6 { line: 7 }
7 piece B cub +x+y+z 1 0 0|A6 { line: 7 }
7 piece B cubes +x+y+z 1 0 0|A6 { line: 7 }
7 piece B duo +x+y+z 1 0 0|A6 { line: 7 }
7 piece B A +x+y+z 1 0 0|A6 { line: 7 }
7 piece B 1 +x+y+z 1 0 0|A6 { line: 7 }
7 piece B # +x+y+z 1 0 0|A6 { line: 7 }
; no orientation: mirrors, images along one axis, words of another form
7 piece B cube -x+y+z 1 0 0|A4 { line: 7 }
7 piece B cube +y+x+z 1 0 0|A4 { line: 7 }
7 piece B cube +x+x+z 1 0 0|A4 { line: 7 }
7 piece B cube +x-x+z 1 0 0|A4 { line: 7 }
7 piece B cube +x+y 1 0 0|A4 { line: 7 }
7 piece B cube +x+y+z+x 1 0 0|A4 { line: 7 }
7 piece B cube +x+y+zz 1 0 0|A4 { line: 7 }
7 piece B cube x+y+z+ 1 0 0|A4 { line: 7 }
7 piece B cube xyz 1 0 0|A4 { line: 7 }
7 piece B cube +X+Y+Z 1 0 0|A4 { line: 7 }
7 piece B cube 0 1 0 0|A4 { line: 7 }
; a position out of reach, and one that is taken
7 piece B cube +x+y+z 65 0 0|A5 { line: 7 }
7 piece B cube +x+y+z 0 0 0|A8 { line: 7, earlier: 0, piece: 1 }
; two faults on a line
7 piece 1 block +x+y+z 1 0 0|A2 { line: 7 }
7 piece A block +x+y+z 1 0 0|A2 { line: 7 }
7 piece 1 cube -x+y+z 1 0 0|A2 { line: 7 }
7 piece A cube -x+y+z 1 0 0|A2 { line: 7 }
7 piece 1 cube +x+y+z 0 65 0|A2 { line: 7 }
7 piece A cube +x+y+z 0 65 0|A2 { line: 7 }
7 piece 1 cube +x+y+z 0 0 0|A2 { line: 7 }
7 piece A cube +x+y+z 0 0 0|A2 { line: 7 }
7 piece B block -x+y+z 1 0 0|A6 { line: 7 }
7 piece B block +x+y+z 1 0 65|A6 { line: 7 }
7 piece B block +x+y+z 0 0 0|A6 { line: 7 }
7 piece B cube -x+y+z 65 0 0|A4 { line: 7 }
7 piece B cube -x+y+z 0 0 0|A4 { line: 7 }
; more than two
7 piece B block -x+y+z 99 0 0|A6 { line: 7 }
7 piece A block -x+y+z 99 0 0|A2 { line: 7 }
7 piece A block -x+y+z 99 0 00|A1 { line: 7 }
; faults on two lines
5 end/shape cube/shape rod|A2 { line: 6 }
6 piece A cube -x+y+z 0 0 0/end|A4 { line: 6 }
6 piece A block +x+y+z 65 0 0//|A6 { line: 6 }
7 piece B cube +x+y+z 0 0 0/end|A8 { line: 7, earlier: 0, piece: 1 }
";

/// Texts that end too early.
pub const FRONTS: &str = "\
|A1 { line: 1 }
assembly duo|A1 { line: 1 }
assembly 1|A1 { line: 1 }
assembly duo/|A1 { line: 2 }
assembly duo/shape cube/|A1 { line: 3 }
assembly duo/shape cube/layer/|A1 { line: 4 }
assembly duo/shape cube/layer/#/|A1 { line: 5 }
assembly duo/shape cube/layer/#/layer/|A1 { line: 6 }
assembly duo/shape cube/layer/#/end/|A7 { line: 6 }
";

/// The duo up to its pieces.
pub const UP_TO_PIECES: &str = "assembly duo/shape cube/layer/#/end/@";

/// What stands after the duo's shape, up to the end.
pub const ENDS: &str = "\
shape rod/|A1 { line: 7 }
shape rod/layer/|A1 { line: 8 }
shape rod/layer/#/|A1 { line: 9 }
shape rod/layer/#/end/|A7 { line: 10 }
piece A cube +x+y+z 0 0 0/|A7 { line: 7 }
; a last line without its LF: right, wrong, and after a wrong one
shape rod|A1 { line: 6 }
shape rod/layer/#/end|A1 { line: 9 }
piece A cube +x+y+z 0 0 0|A1 { line: 6 }
piece A cube +x+y+z 0 0 0/piece B cube +x+y+z 1 0 0|A1 { line: 7 }
piece A cube +x+y+z 0 0 0/piece B cube +x+y+z 0 0 0|A1 { line: 7 }
piece A cube +x+y+z 0 0 0/piece 1 block -x+y+z 99 0 0|A1 { line: 7 }
piece A cube +x+y+z 65 0 0/piece B cube +x+y+z 1 0 0|A5 { line: 6 }
piece A cube +x+y+z 0 0 0/piece B cube +x+y+z 1 0 0//|A1 { line: 8 }
";

/// A text around the drawing of its shape.
pub const DRAWN: &str = "\
assembly drawn/shape drawn/@piece A drawn +x+y+z 0 0 0/piece B drawn +x+y+z 9 9 9/";

/// What stands after the line of a shape, the second of its text.
pub const DRAWINGS: &str = "\
layer/#/end/|right
layer/##/../.#/layer/../#./../end/|right
layer/./layer/#/layer/./end/|right
; no layer has begun
end/|A1 { line: 3 }
#/end/|A1 { line: 3 }
#################/|A1 { line: 3 }
shape drawn/|A1 { line: 3 }
; a row unlike the first one
layer/##/#/end/|A3 { line: 5 }
layer/#/##/end/|A3 { line: 5 }
layer/##/layer/#/end/|A3 { line: 6 }
layer/##/layer/###/end/|A3 { line: 6 }
layer/#/layer/#/##/end/|A3 { line: 7 }
layer/#################/end/|A3 { line: 4 }
layer/#/#################/end/|A3 { line: 5 }
; a layer without rows
layer/end/|A3 { line: 4 }
layer/layer/#/end/|A3 { line: 4 }
layer/#/layer/end/|A3 { line: 6 }
layer/#/layer/layer/#/end/|A3 { line: 6 }
; a layer with another number of rows than the first
layer/#/#/layer/#/end/|A3 { line: 8 }
layer/#/#/layer/#/layer/#/#/end/|A3 { line: 8 }
layer/#/layer/#/#/end/|A3 { line: 8 }
layer/#/layer/#/#/layer/#/end/|A3 { line: 8 }
layer/#/layer/#/layer/#/#/#/#/end/|A3 { line: 12 }
; no cell
layer/./end/|A3 { line: 5 }
layer/../../layer/../../end/|A3 { line: 9 }
; the 17th row of a later layer; the 16th is right
layer/#/layer/#/#/#/#/#/#/#/#/#/#/#/#/#/#/#/#/x/|A1 { line: 22 }
layer/#/layer/#/#/#/#/#/#/#/#/#/#/#/#/#/#/#/#/#/x/|A3 { line: 22 }
; a line that may not stand there goes before
layer/##/#x/end/|A1 { line: 5 }
layer/##/x/end/|A1 { line: 5 }
layer/################x/end/|A1 { line: 4 }
layer/#/layer/#/#/layer /|A1 { line: 8 }
layer/end ./|A1 { line: 4 }
layer/./end./|A1 { line: 5 }
layer/shape rod/|A1 { line: 4 }
layer/#/shape rod/|A1 { line: 5 }
layer/#/assembly drawn/|A1 { line: 5 }
layer/#/piece A drawn +x+y+z 0 0 0/|A1 { line: 5 }
layer/#/layer/piece A drawn +x+y+z 0 0 0/|A1 { line: 6 }
layer/#//end/|A1 { line: 5 }
";

/// A text up to its pieces of two cells.
pub const UP_TO_BARS: &str = "assembly bars/shape bar/layer/##/end/@";

/// Pieces of two cells each, from line 6 on.
pub const BARS: &str = "\
piece A bar +x+y+z 0 0 0/piece B bar +x+y+z 2 0 0/piece C bar +y-x+z 4 0 0/|right
; the third shares a cell with both, in either order of its cells and of theirs
piece A bar +x+y+z 0 0 0/piece B bar +x+y+z 2 0 0/piece C bar +x+y+z 1 0 0/|\
A8 { line: 8, earlier: 0, piece: 2 }
piece A bar +x+y+z 0 0 0/piece B bar +x+y+z 2 0 0/piece C bar -x-y+z 2 0 0/|\
A8 { line: 8, earlier: 0, piece: 2 }
piece A bar +x+y+z 2 0 0/piece B bar +x+y+z 0 0 0/piece C bar +x+y+z 1 0 0/|\
A8 { line: 8, earlier: 0, piece: 2 }
; with two of three
piece A bar +x+y+z 9 0 0/piece B bar +x+y+z 2 0 0/piece C bar +x+y+z 0 0 0/\
piece D bar +x+y+z 1 0 0/|A8 { line: 9, earlier: 1, piece: 3 }
; with one
piece A bar +x+y+z 0 0 0/piece B bar +x+y+z 2 0 0/piece C bar +x+y+z 3 0 0/|\
A8 { line: 8, earlier: 1, piece: 2 }
piece A bar +x+y+z 0 0 0/piece B bar +y-x+z 1 -1 0/|A8 { line: 7, earlier: 0, piece: 1 }
; a cell that both have, and a position out of reach
piece A bar +x+y+z 64 0 0/piece B bar +x+y+z 65 0 0/|A5 { line: 7 }
";
