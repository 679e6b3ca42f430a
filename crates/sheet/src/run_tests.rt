// Whole sheets on examples: each refusal that a sheet can get, and inputs that are no sheet.
use super::run::run;
use answering::program::answer_input;
use std::process::Abort;
use std::test::Fail;

fn check_answers(
    rt: &(impl Abort + AllocGlobal),
    input: &[u8],
    answers: &[u8],
) -> Result<(), Fail> {
    let out = run(rt.alloc(), input)?;
    assert!(rt; out.as_slice() == answers);
    Ok(())
}

#[test]
fn calls_with_the_update_barrier(rt: HostRuntime) -> Result<(), Fail> {
    check_answers(
        &rt,
        b"openu          4         2         1\nload           7        -7          \nlook           7                    ",
        b"         0         0         0         0         0\n         0         0         0         0         0\n         0         1        -7         0         0\n",
    )
}

#[test]
fn refusals_of_the_sheet(rt: HostRuntime) -> Result<(), Fail> {
    check_answers(
        &rt,
        b"look 0\nstep                                \nlook          07                    \nlook           0                    \n",
        b"        31         1         1         0         0\n        32         2         1         0         0\n        33         3         1         1         0\n        34         4         1         0         0\n",
    )
}

#[test]
fn refusals_of_the_store(rt: HostRuntime) -> Result<(), Fail> {
    check_answers(
        &rt,
        b"opens          4         2         0\nopens          4         2         1\nempty          8                    \nload           0 536870912          \nopens          4         2         1\n",
        b"         1         1         2         0         0\n         0         0         0         0         0\n         3         3         2         0         0\n         4         4         3         0         0\n        34         5         1         0         0\n",
    )
}

#[test]
fn inputs_that_are_no_sheet(rt: HostRuntime) -> Result<(), Fail> {
    check_answers(&rt, b"", b"")?;
    // 10,000 zero bytes, an empty line, and a line of blanks and one byte 200 without a newline.
    let mut input = [0u8; 10_037];
    input[10_000] = b'\n';
    input[10_001] = b'\n';
    input[10_002..].fill(b' ');
    input[10_020] = 200;
    check_answers(
        &rt,
        &input,
        b"        31         1         1         0         0\n        31         2         1         0         0\n        31         3         1         0         0\n",
    )
}

#[test]
fn a_reader_is_answered_to_a_writer(rt: HostRuntime) -> Result<(), Fail> {
    let mut input =
        b"openu          4         2         1\nlook           7                    ".as_slice();
    let mut output = Vec::new(rt.alloc());
    answer_input(rt.alloc(), &mut input, &mut output, run)?;
    assert!(rt; input.is_empty());
    assert!(rt;
        output.as_slice()
            == b"         0         0         0         0         0\n         0         0         0         0         0\n".as_slice()
    );
    Ok(())
}
