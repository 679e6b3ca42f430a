// The format on examples.
use super::answer::{RowFault, push_row};
use super::column::{Column, read_column, write_column};
use super::command::Command;
use super::line::line_end;
use super::request::{FormatFault, Request, parse_line};
use std::test::Fail;

#[test]
fn columns_at_the_ends_of_the_range(rt: HostRuntime) {
    assert_eq!(rt; read_column(b"          "), Column::Blank);
    assert_eq!(rt; read_column(b"         0"), Column::Number(0));
    assert_eq!(rt; read_column(b"9999999999"), Column::Number(9_999_999_999));
    assert_eq!(rt; read_column(b"-999999999"), Column::Number(-999_999_999));
    assert_eq!(rt; write_column(-999_999_999), Some(*b"-999999999"));
    assert_eq!(rt; write_column(-1_000_000_000), None);
    assert_eq!(rt; write_column(10_000_000_000), None);
    assert_eq!(rt; write_column(-70), Some(*b"       -70"));
}

#[test]
fn what_is_no_number(rt: HostRuntime) {
    assert_eq!(rt; read_column(b"        -0"), Column::NoNumber);
    assert_eq!(rt; read_column(b"       007"), Column::NoNumber);
    assert_eq!(rt; read_column(b"       - 5"), Column::NoNumber);
    assert_eq!(rt; read_column(b"        5 "), Column::NoNumber);
    assert_eq!(rt; read_column(b"         -"), Column::NoNumber);
    assert_eq!(rt; read_column(b"        +5"), Column::NoNumber);
    assert_eq!(rt; read_column(b"         5 "), Column::NoNumber);
}

#[test]
fn where_lines_end(rt: HostRuntime) {
    assert_eq!(rt; line_end(b"ab\n\ncd", 0), 2);
    assert_eq!(rt; line_end(b"ab\n\ncd", 3), 3);
    assert_eq!(rt; line_end(b"ab\n\ncd", 4), 6);
    assert_eq!(rt; line_end(b"ab\n\ncd", 9), 6);
}

#[test]
fn requests(rt: HostRuntime) {
    let load = Request {
        command: Command::Load,
        a: 0,
        b: -7,
        c: 0,
    };
    assert_eq!(rt;
        parse_line(b"load           0        -7          "),
        Ok(load)
    );
    let opens = Request {
        command: Command::OpenSnapshot,
        a: 4,
        b: 2,
        c: 1,
    };
    assert_eq!(rt;
        parse_line(b"opens          4         2         1"),
        Ok(opens)
    );
}

#[test]
fn refused_lines(rt: HostRuntime) {
    let long = [b' '; 10_000];
    assert_eq!(rt; parse_line::<Command>(&long), Err(FormatFault::NotALine));
    assert_eq!(rt;
        parse_line::<Command>(b"look           0                   "),
        Err(FormatFault::NotALine)
    );
    assert_eq!(rt;
        parse_line::<Command>(b"look           0                   \x7f"),
        Err(FormatFault::NotALine)
    );
    assert_eq!(rt;
        parse_line::<Command>(b"Look           0                    "),
        Err(FormatFault::UnknownCommand)
    );
    assert_eq!(rt;
        parse_line::<Command>(b"look                                "),
        Err(FormatFault::BadField(1))
    );
    assert_eq!(rt;
        parse_line::<Command>(b"copy           0        01         1"),
        Err(FormatFault::BadField(2))
    );
    assert_eq!(rt;
        parse_line::<Command>(b"same           0         1         1"),
        Err(FormatFault::BadField(3))
    );
}

#[test]
fn answer_lines(rt: HostRuntime) -> Result<(), Fail> {
    let mut out = Vec::new(rt.alloc());
    push_row(&mut out, [0, -1, 9_999_999_999, -999_999_999, 7])?;
    assert_eq!(rt;
        push_row(&mut out, [0, 0, 10_000_000_000, 0, 0]),
        Err(RowFault::WontFit)
    );
    assert!(rt;
        out.as_slice() == b"         0        -19999999999-999999999         7\n".as_slice()
    );
    Ok(())
}
