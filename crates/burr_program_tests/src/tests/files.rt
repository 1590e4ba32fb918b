//! Files that can't be read, and containers that are made in place of files. The tests share one
//! folder: each makes files of its own names.
use super::transcript::{assert_examples, assert_transcript};
use super::*;
use std::fs::{File, OpenFile};
use std::os::unix::fs::symlink;

/// The commands that read files, each with `*` in place of one of them.
const READING: &str = "\
burr asm * made
burr cells *
burr list *
burr list --places *
burr upgrade * made
burr check * duo.bpln
burr check duo *
burr run * duo.bpln
burr run duo *
burr try * duo.bpln
burr try duo *
burr step * duo.bpln
burr step duo *
burr drive * duo.bpln
burr drive duo *
burr why * duo.plan
burr why duo *
burr trace * duo.plan
burr trace duo *
burr frames * duo.plan made
burr frames duo * made
burr plan * duo made
burr plan duo * made
";

/// The commands that write a file, with `*` in its place.
const WRITING: &str = "\
burr asm duo.plan *
burr upgrade duo.bpln *
";

/// Asserts that each of the commands ends with this line on standard error, and reads no standard input,
/// where a name stands for `*`.
fn assert_told<T: Abort + Files + AllocGlobal>(rt: &T, commands: &str, told: &str, name: &str) {
    let commands = replaced(rt, commands, "*", name);
    let told = replaced(rt, told, "*", name);
    for line in commands.lines() {
        let unread = Drips {
            left: b"",
            calls: 0,
        };
        let end = end_with(rt, line, unread);
        assert_case(rt, line, end.is(3, "", &told));
    }
}

/// Makes a file of `length` bytes.
pub fn put_long<T: Files>(rt: &T, name: &str, length: usize) -> io::Result<()> {
    File::create(rt, name)?.set_len(length as u64)
}

/// Makes a file that may not be written.
fn put_sealed<T: Files>(rt: &T, name: &str) -> io::Result<()> {
    fs::write(rt, name, "as before\n")?;
    let mut permissions = fs::metadata(rt, name)?.permissions();
    permissions.set_readonly(true);
    fs::set_permissions(rt, name, permissions)
}

/// What is not there, a folder, what a file has below it, and a file that is too long.
const UNREADABLE: &str = "\
none
folder
duo/none
long
";

/// A file of as many bytes as may be, and one of more in the second place; the files that no command has
/// made.
const FULL: &str = "\
$burr list full
>refused C2 at 0
?1
$burr check full long
!cannot read long
?3
<as before
=as.before
~made as.before
";

/// Makes a folder, a file of as many bytes as may be, and one of more.
fn put_unreadable<T: Files>(rt: &T) -> io::Result<()> {
    put_long(rt, "full", LIMIT)?;
    put_long(rt, "long", LIMIT + 1)?;
    fs::create_dir(rt, "folder")
}

#[test]
fn tells_what_cannot_be_read(rt: HostRuntime) {
    assert_examples(&rt, "<as before\n=made\n");
    assert_case(&rt, "files", put_unreadable(&rt).is_ok());
    for name in UNREADABLE.lines() {
        assert_told(&rt, READING, "cannot read *\n", name);
    }
    assert_transcript(&rt, FULL);
}

/// A folder that is not there, a folder, a file in place of a folder, a device that is full, and a file
/// that may not be written.
const UNWRITABLE: &str = "\
none/made
shelf
duo/made
/dev/full
sealed
";

/// No file is left beside it.
const BESIDE: &str = "\
$burr list *.new0
!cannot read *.new0
?3
";

/// Makes a folder, and a file that may not be written.
fn put_unwritable<T: Files>(rt: &T) -> io::Result<()> {
    fs::create_dir(rt, "shelf")?;
    put_sealed(rt, "sealed")
}

/// Asserts that no file of this name is written, and none beside it.
fn assert_unwritten<T: Abort + Files + AllocGlobal>(rt: &T, name: &str) {
    assert_told(rt, WRITING, "cannot write *\n", name);
    assert_transcript(rt, &replaced(rt, BESIDE, "*", name));
}

#[test]
fn tells_what_cannot_be_written(rt: HostRuntime) {
    assert_examples(&rt, "<as before\n=as.before\n");
    assert_case(&rt, "files", put_unwritable(&rt).is_ok());
    for name in UNWRITABLE.lines() {
        assert_unwritten(&rt, name);
    }
    assert_transcript(&rt, "~sealed as.before\n");
}

/// The container of one plan in place of another's, then a plan text that is refused, and a plan text
/// that a container would be written over.
const OVER: &str = "\
$burr asm cup.plan duo.bpln
?0
$burr check cup duo.bpln
>accepted cost 14 budget 14 looks 6
?0
@ring.plan
/proc main 0/proc main zero
=wrong.plan
$burr asm wrong.plan duo.bpln
>refused P1 line 2
?1
$burr check cup duo.bpln
>accepted cost 14 budget 14 looks 6
?0
$burr asm ring.plan ring.plan
!error: OUT is TEXT itself: ring.plan
?2
$burr asm ring.plan ./ring.plan
!error: OUT is TEXT itself: ./ring.plan
?2
$burr asm ring.plan other.plan
!error: OUT is TEXT itself: other.plan
?2
~ring.plan ring.text
$burr asm none none
!error: OUT is TEXT itself: none
?2
$burr asm ring.plan none/ring.bpln
!cannot write none/ring.bpln
?3
$burr asm ring.plan ring.bpln
?0
$burr check ring ring.bpln
>accepted cost 11 budget 11 looks 4
?0
";

#[test]
fn never_writes_over_a_plan_text(rt: HostRuntime) {
    assert_examples(&rt, "@ring.plan\n=ring.text\n");
    assert!(rt; fs::hard_link(&rt, "ring.plan", "other.plan").is_ok());
    assert_transcript(&rt, OVER);
}

/// A file that may not be written stays, and one that is replaced keeps the links that lead to it; files
/// beside it stay, and no other one is left there.
const REPLACED: &str = "\
<as before
=as.before
@as.before
=old.bpln.new0
$burr asm duo.plan closed.bpln
!cannot write closed.bpln
?3
~closed.bpln as.before
$burr asm duo.plan old.bpln
?0
~old.bpln duo.bpln
$burr asm cup.plan link
?0
~old.bpln cup.bpln
~old.bpln.new0 as.before
$burr list old.bpln.new1
!cannot read old.bpln.new1
?3
";

#[test]
fn replaces_a_container_whole(rt: HostRuntime) {
    assert_case(&rt, "closed.bpln", put_sealed(&rt, "closed.bpln").is_ok());
    assert_case(&rt, "link", symlink(&rt, "old.bpln", "link").is_ok());
    assert_examples(&rt, REPLACED);
    let link = fs::symlink_metadata(&rt, "link");
    assert!(rt; link.is_ok_and(|link| link.is_symlink()));
}
