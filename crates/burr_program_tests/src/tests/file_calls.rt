//! Which calls on files each command makes, and in which order. The tests share one folder, where each makes its
//! files anew.
use super::faulty_files::{Calls, Failing, Faulty};
use super::transcript::{add, assert_examples, digit};
use super::*;
use std::fs::Permissions;
use std::os::unix::fs::{PermissionsExt, symlink};

/// How a command line ends, and its calls on files. Paths lack the folder that the test runs in.
fn logged<T: Abort + Files + AllocGlobal>(
    rt: &T,
    line: &str,
    input: &str,
    failing: Failing<'_>,
) -> (End, String) {
    let calls = Calls::new(rt.alloc(), failing);
    let faulty = Faulty { rt, calls: &calls };
    let end = end_over(&faulty, &words_of(rt, line), Drips::of(input));
    let folder = fs::canonicalize(rt, ".").expect(rt, "a folder");
    let folder = folder.as_path().as_str();
    let folder = format!(in rt.alloc(); "{folder}/").expect(rt, "memory");
    (end, replaced(rt, &calls.into_log(), &folder, ""))
}

/// Replaces `out` by a copy of a file, or removes it if there is no such file.
fn put_old<T: Files>(rt: &T, old: &str) {
    let _ = fs::remove_file(rt, "out");
    let _ = fs::copy(rt, old, "out");
}

/// A row of a table: command lines and their input, and how each of them ends.
#[derive(Drop)]
struct Row {
    input: String,
    commands: String,
    calls: String,
    complaint: String,
}

impl Row {
    fn new(alloc: Global) -> Row {
        Row {
            input: String::new(alloc),
            commands: String::new(alloc),
            calls: String::new(alloc),
            complaint: String::new(alloc),
        }
    }

    /// Takes a line of a table; the line of the status ends the row. False if out of memory.
    fn take<T: Abort + Files + AllocGlobal>(&mut self, rt: &T, old: &str, line: &str) -> bool {
        let mut rest = line.chars();
        match rest.next() {
            Some('<') => add(&mut self.input, rest.as_str(), "\n"),
            Some('$') => add(&mut self.commands, rest.as_str(), "\n"),
            Some('!') => add(&mut self.complaint, rest.as_str(), "\n"),
            Some('?') => {
                self.assert_ends(rt, old, digit(rest.as_str()));
                *self = Row::new(rt.alloc());
                true
            }
            _ => add(&mut self.calls, line, "\n"),
        }
    }

    /// Asserts that each command line makes these calls, and ends so.
    fn assert_ends<T: Abort + Files + AllocGlobal>(&self, rt: &T, old: &str, status: u8) {
        for line in self.commands.lines() {
            put_old(rt, old);
            let (end, log) = logged(rt, line, &self.input, Failing::None);
            let calls = self.calls.as_str();
            assert!(rt; log.as_str() == calls, "{line}\n{log}in place of\n{calls}");
            let is_so = end.is(status, end.output.text(), &self.complaint);
            assert_case(rt, line, is_so);
        }
    }
}

/// Goes through the rows of a table. Before each command line `out` is replaced by a copy of `old`, or removed
/// if there is no such file. The first byte of a line says what it is:
///
/// ```text
/// <TEXT    a line of standard input
/// $WORDS   a command line
/// CALL     a call on files; each command line of the row makes these, and no others
/// !TEXT    a line of standard error
/// ?N       each command line of the row ends with this status
/// ```
fn assert_table<T: Abort + Files + AllocGlobal>(rt: &T, old: &str, table: &str) {
    let mut row = Row::new(rt.alloc());
    for line in table.lines() {
        let is_taken = row.take(rt, old, line);
        assert_case(rt, line, is_taken);
    }
    assert_case(rt, "the last row has a status", row.commands.is_empty());
}

/// The commands that write no file. `judge` reads an assembly once for the lines in a row that name it.
const READING: &str = "\
$burr check duo duo.bpln
$burr run duo duo.bpln
$burr try duo duo.bpln
$burr step duo duo.bpln
$burr drive duo duo.bpln
open duo
read 88
open duo.bpln
read 70
?0
$burr drive duo duo.plan
$burr why duo duo.plan
$burr trace duo duo.plan
open duo
read 88
open duo.plan
read 98
?0
$burr cells duo
open duo
read 88
?0
$burr list duo.bpln
$burr list --places duo.bpln
open duo.bpln
read 70
?0
<duo\tduo.plan
<duo\tduo.bpln
$burr judge
open duo
read 88
open duo.plan
read 98
open duo.bpln
read 70
?0
";

/// The first file can't be read; or the second one, and the first one would be refused.
const MISSING: &str = "\
$burr check one two
$burr run one two
$burr try one two
$burr step one two
$burr drive one two
$burr why one two
$burr trace one two
$burr cells one
$burr list one
open one
!cannot read one
?3
$burr check duo.plan two
$burr run duo.plan two
$burr try duo.plan two
$burr step duo.plan two
$burr drive duo.plan two
$burr why duo.plan two
$burr trace duo.plan two
open duo.plan
read 98
open two
!cannot read two
?3
$burr asm one out
$burr upgrade one out
metadata one
metadata out
open one
!cannot read one
?3
$burr frames one two out
$burr plan one two out
metadata one
metadata out
metadata two
metadata out
open one
!cannot read one
?3
$burr frames duo.plan two out
$burr plan duo.plan two out
metadata duo.plan
metadata out
metadata two
metadata out
open duo.plan
read 98
open two
!cannot read two
?3
<one\ttwo
$burr judge
open one
?3
";

#[test]
fn reads_files_in_the_order_of_the_words(rt: HostRuntime) {
    assert_examples(&rt, "");
    assert_table(&rt, "none", READING);
    assert_table(&rt, "none", MISSING);
}

/// Command lines that name no file.
const FILELESS: &str = "\
$burr --help
$burr --version
$burr help asm
$burr explain V15
$burr judge
$burr judge --null
?0
$burr
?1
$burr explain A9
!error: nothing is explained under A9
?2
";

#[test]
fn opens_no_file_if_none_is_named(rt: HostRuntime) {
    assert_table(&rt, "none", FILELESS);
}

/// A sheet of the example's plan.
const SHEET: &str = "\
<1 t0 A -x 0 out
<levels 1
<apart in 3 steps
=sheet
";

/// Makes a file with these permissions.
fn put_with_mode<T: Files>(rt: &T, name: &str, mode: u32) -> io::Result<()> {
    let _ = fs::remove_file(rt, name);
    fs::write(rt, name, "as before\n")?;
    fs::set_permissions(rt, name, Permissions::from_mode(mode))
}

/// Makes the files of the examples and a sheet, and two files to be replaced.
fn put_files<T: Abort + Files + AllocGlobal>(rt: &T) {
    assert_examples(rt, SHEET);
    assert_case(rt, "old.640", put_with_mode(rt, "old.640", 0o640).is_ok());
    assert_case(rt, "old.440", put_with_mode(rt, "old.440", 0o440).is_ok());
}

/// The commands that write a file, which is not there yet.
const MAKING: &str = "\
$burr asm duo.plan out
metadata duo.plan
metadata out
open duo.plan
read 98
metadata out
create_new out.new0
write 70
sync all
rename out.new0 out
?0
$burr upgrade duo.bpln out
metadata duo.bpln
metadata out
open duo.bpln
read 70
metadata out
create_new out.new0
write 71
sync all
rename out.new0 out
?0
$burr frames duo duo.plan out
metadata duo
metadata out
metadata duo.plan
metadata out
open duo
read 88
open duo.plan
read 98
metadata out
create_new out.new0
write 98
sync all
rename out.new0 out
?0
$burr plan duo sheet out
metadata duo
metadata out
metadata sheet
metadata out
open duo
read 88
open sheet
read 42
metadata out
create_new out.new0
write 98
sync all
rename out.new0 out
?0
";

/// Not a regular file.
const DEVICE: &str = "\
$burr asm duo.plan /dev/null
metadata duo.plan
metadata /dev/null
open duo.plan
read 98
metadata /dev/null
create /dev/null
write 70
?0
";

#[test]
fn syncs_a_new_file_before_it_is_renamed(rt: HostRuntime) {
    put_files(&rt);
    assert_table(&rt, "none", MAKING);
    assert_table(&rt, "none", DEVICE);
}

/// The call that makes the new file, and what stands in its place if an old one is replaced: the new one gets
/// its permissions before its bytes.
const CREATED: &str = "create_new out.new0\n";

const REPLACING: &str = "canonicalize out\ncreate_new out.new0\npermissions 640\n";

/// A link to the old file, which is replaced where it stands.
const LINKED: &str = "\
$burr asm duo.plan out.link
metadata duo.plan
metadata out.link
open duo.plan
read 98
metadata out.link
canonicalize out.link
create_new out.new0
permissions 640
write 70
sync all
rename out.new0 out
?0
";

#[test]
fn gives_a_new_file_the_permissions_of_the_old_one_first(rt: HostRuntime) {
    put_files(&rt);
    assert_table(&rt, "old.640", &replaced(&rt, MAKING, CREATED, REPLACING));
    let written = fs::metadata(&rt, "out").expect(&rt, "a file");
    assert!(rt; written.permissions().mode() & 0o777 == 0o640);
    let _ = fs::remove_file(&rt, "out.link");
    assert_case(&rt, "out.link", symlink(&rt, "out", "out.link").is_ok());
    assert_table(&rt, "old.640", LINKED);
}

/// A file that nobody may write is left alone.
const SEALED: &str = "\
$burr asm duo.plan out
metadata duo.plan
metadata out
open duo.plan
read 98
metadata out
!cannot write out
?3
$burr upgrade duo.bpln out
metadata duo.bpln
metadata out
open duo.bpln
read 70
metadata out
!cannot write out
?3
$burr frames duo duo.plan out
metadata duo
metadata out
metadata duo.plan
metadata out
open duo
read 88
open duo.plan
read 98
metadata out
!cannot write out
?3
$burr plan duo sheet out
metadata duo
metadata out
metadata sheet
metadata out
open duo
read 88
open sheet
read 42
metadata out
!cannot write out
?3
";

#[test]
fn makes_no_file_if_the_old_one_is_read_only(rt: HostRuntime) {
    put_files(&rt);
    assert_table(&rt, "old.440", SEALED);
}

/// The calls that make the new file if another one has its first name.
const BESIDE: &str = "create_new out.new0\ncreate_new out.new1\n";

#[test]
fn takes_the_next_name_beside_if_the_first_is_taken(rt: HostRuntime) {
    put_files(&rt);
    assert_case(
        &rt,
        "out.new0",
        fs::copy(&rt, "old.640", "out.new0").is_ok(),
    );
    let beside = replaced(&rt, MAKING, CREATED, BESIDE);
    assert_table(
        &rt,
        "none",
        &replaced(&rt, &beside, "rename out.new0", "rename out.new1"),
    );
    assert_case(&rt, "out.new0", are_alike(&rt, "out.new0", "old.640"));
    assert_case(&rt, "out.new0", fs::remove_file(&rt, "out.new0").is_ok());
}

/// The command lines that write a file.
const WRITING: &str = "\
burr asm duo.plan out
burr upgrade duo.bpln out
burr frames duo duo.plan out
burr plan duo sheet out
";

/// Calls that fail if an old file is replaced, and the last calls that are made then.
const FAILING: [(&str, &str); 5] = [
    ("create_new", "canonicalize out\ncreate_new out.new0\n"),
    (
        "permissions",
        "create_new out.new0\npermissions 640\nremove out.new0\n",
    ),
    ("write", "permissions 640\nwrite 0\nremove out.new0\n"),
    ("sync", "\nsync all\nremove out.new0\n"),
    (
        "rename",
        "\nsync all\nrename out.new0 out\nremove out.new0\n",
    ),
];

/// Asserts that a command line makes these calls last if one fails, and leaves the old file alone.
fn assert_removed<T: Abort + Files + AllocGlobal>(rt: &T, line: &str, failing: &str, last: &str) {
    put_old(rt, "old.640");
    let (end, log) = logged(rt, line, "", Failing::At(failing));
    assert!(rt; log.ends_with(last), "{line}\n{log}");
    assert_case(rt, line, end.is(3, "", "cannot write out\n"));
    assert_case(rt, line, are_alike(rt, "out", "old.640"));
    assert_case(rt, line, are_alike(rt, "out.new0", "none"));
}

#[test]
fn removes_the_new_file_if_a_call_fails(rt: HostRuntime) {
    put_files(&rt);
    for line in WRITING.lines() {
        for (failing, last) in FAILING {
            assert_removed(&rt, line, failing, last);
        }
    }
}

/// Texts that are refused: OUT is compared with the inputs, and no other call is made on it. If it is one of
/// them, no file is opened.
const REFUSED: &str = "\
$burr asm duo out
$burr upgrade duo out
metadata duo
metadata out
open duo
read 88
?1
$burr frames duo duo out
$burr plan duo duo out
metadata duo
metadata out
metadata duo
metadata out
open duo
read 88
open duo
read 88
?1
$burr frames duo.plan duo.plan out
$burr plan duo.plan duo.plan out
metadata duo.plan
metadata out
metadata duo.plan
metadata out
open duo.plan
read 98
open duo.plan
read 98
?1
$burr asm sheet sheet
!error: OUT is TEXT itself: sheet
?2
$burr plan duo sheet ./sheet
metadata duo
metadata ./sheet
metadata sheet
metadata ./sheet
!error: OUT is SHEET itself: ./sheet
?2
";

#[test]
fn leaves_out_alone_if_a_text_is_refused(rt: HostRuntime) {
    put_files(&rt);
    assert_table(&rt, "none", REFUSED);
    assert_table(&rt, "old.640", REFUSED);
}
