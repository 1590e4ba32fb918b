//! Assemblies and plans that several tests use.

/// Two cubes side by side, and code that takes them apart.
pub const DUO: &str =
    "assembly duo\nshape cube\nlayer\n#\nend\npiece A cube +x+y+z 0 0 0\npiece B cube +x+y+z 1 0 0\ncode 100000000112010100\n";

/// Makes the assemblies of examples/ as `duo`, `ring` and `cup`, and the containers of their plans as
/// `duo.bpln`, `ring.bpln` and `cup.bpln`, as a transcript.
pub const EXAMPLES: &str = "\
<assembly duo
<shape cube
<layer
<#
<end
<piece A cube +x+y+z 0 0 0
<piece B cube +x+y+z 1 0 0
=duo
<plan duo 2 3
<proc p0 0
<label L0
<frame 0 -
<cost 3
<at 0 0 0 0 0
<at 1 0 0 0 0
<grip 0
<aside -x 1
<halt
=duo.plan
$burr asm duo.plan duo.bpln
?0
<assembly ring
<shape rod
<layer
<#
<layer
<#
<layer
<#
<end
<shape ring
<layer
<###
<#.#
<###
<end
<piece A rod +x+y+z 1 1 0
<piece B ring +x+y+z 0 0 0
=ring
<plan ring 2 11
<proc main 0
<label start
<frame 0 -
<cost 11
<at 0 0 0 0 0
<at 1 0 0 0 0
<grip 0
<push 2
<store 0
<label L
<frame 0 0
<slot 0 0 2
<cost 4+2v0
<at 0 0 0 0 2-1v0
<at 1 0 0 0 0
<step +z
<down 0 L
<aside +z 1
<halt
=ring.plan
$burr asm ring.plan ring.bpln
?0
<assembly cup
<shape dot
<layer
<#
<end
<shape bowl
<layer
<###
<###
<###
<layer
<###
<#.#
<###
<end
<piece A dot +x+y+z 1 1 1
<piece B bowl +x+y+z 0 0 0
=cup
<plan cup 2 14
<proc main 0
<label start
<frame 0 -
<cost 14
<at 0 0 0 0 0
<at 1 0 0 0 0
<grip 0
<ask 0 2
<store 0
<load 0
<store 1
<label L
<frame 0 0
<slot 0 0 2
<slot 1 0 2
<guard 0+1v0-1v1
<cost 3+3v1
<at 0 0 0 0 0+1v0-1v1
<at 1 0 0 0 0
<down 1 M
<aside +z 1
<halt
<label M
<frame 0 0
<slot 0 0 2
<slot 1 0 1
<guard -1+1v0-1v1
<cost 5+3v1
<at 0 0 0 0 -1+1v0-1v1
<at 1 0 0 0 0
<step +z
<jump L
=cup.plan
$burr asm cup.plan cup.bpln
?0
";
