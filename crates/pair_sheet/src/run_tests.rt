// Whole sheets on examples: the refusals that a sheet can get before its store is open, and inputs that are no sheet.
use super::run::run;
use std::process::Abort;
use std::test::Fail;

fn check_answers(
    rt: &(impl Abort + AllocGlobal),
    input: &[u8],
    answers: &[u8],
) -> Result<(), Fail> {
    let out = run(rt.alloc(), input)?;
    assert!(rt; out.as_slice() == answers);
    Ok(())
}

#[test]
fn records_with_the_update_barrier(rt: HostRuntime) -> Result<(), Fail> {
    check_answers(
        &rt,
        b"openu          4         2         1\nmake           7         7         7\nread           0         7         1\nstep                                \nwrite          7         0         7\nlook           7                    \ntell                                ",
        b"         0         0         0         0         0\n         0         1         0         0         0\n         0         0         0         0         0\n         0         1         1         0         0\n         0         0         0         0         0\n         0         2         0         0         0\n         0         3         0         0         1\n",
    )
}

#[test]
fn refusals_of_the_sheet(rt: HostRuntime) -> Result<(), Fail> {
    check_answers(
        &rt,
        b"look 0\nStep                                \nlook          07                    \nstep                                \n",
        b"        31         1         1         0         0\n        32         2         1         0         0\n        33         3         1         1         0\n        34         4         1         0         0\n",
    )
}

#[test]
fn refused_opens(rt: HostRuntime) -> Result<(), Fail> {
    check_answers(
        &rt,
        b"opens          4         2         0\nopenu        257        64         1\nopens        256        65         1\nopenu        257      1025         1\nopens        256        64     16384\ntell                                \nopens          4         2         1\n",
        b"         1         1         2         0         0\n         2         2         2         0         0\n         2         3         2         0         0\n         1         4         2         0         0\n         0         0         0         0         0\n         0       256         0         0         0\n        34         7         1         0         0\n",
    )
}

#[test]
fn inputs_that_are_no_sheet(rt: HostRuntime) -> Result<(), Fail> {
    check_answers(&rt, b"", b"")?;
    // 10,000 zero bytes, an empty line, and a line of blanks and one byte 200 without a newline.
    let mut input = [0u8; 10_037];
    input[10_000] = b'\n';
    input[10_001] = b'\n';
    input[10_002..].fill(b' ');
    input[10_020] = 200;
    check_answers(
        &rt,
        &input,
        b"        31         1         1         0         0\n        31         2         1         0         0\n        31         3         1         0         0\n",
    )
}
