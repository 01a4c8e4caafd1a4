//! The reader of work lists and the lines of answers.
use refusal::Refusal;
use std::alloc::{AllocError, Global};
use std::process::Abort;
use std::test::Fail;
use worklist::{Answer, Fault, Order, check_list, next_to_run};

fn turned_down(rt: &impl Abort, text: &[u8], refusal: Refusal, line: u16) {
    assert_eq!(rt; check_list(text), Err(Fault { refusal, line }));
}

// Each text is a lone line of another form.
fn malformed(rt: &impl Abort, texts: &[&[u8]]) {
    for text in texts {
        turned_down(rt, text, Refusal::LineMalformed, 1);
    }
}

#[test]
fn other_forms(rt: HostRuntime) {
    malformed(
        &rt,
        &[
            b"S", b"Z 0", b"\n", b" S\n", b"S \n", b"S\r\n", b"SS\n", b"O 1\n", b"Q 1\n", b"x 1\n",
            b"#\n", b"\0\n",
        ],
    );
}

#[test]
fn other_separators(rt: HostRuntime) {
    malformed(
        &rt,
        &[
            b"X1\n",
            b"X\t1\n",
            b"X  1\n",
            b"X 1 \n",
            b"X 1\r\n",
            b"E 1,2\n",
            b"E 1  2\n",
        ],
    );
}

#[test]
fn other_numbers(rt: HostRuntime) {
    malformed(
        &rt,
        &[
            b"X \n",
            b"X 00\n",
            b"X 01\n",
            b"X 65536\n",
            b"X 99999\n",
            b"X 100000\n",
            b"X 000001\n",
            b"X -1\n",
            b"X 1a\n",
        ],
    );
}

#[test]
fn too_few_or_too_many_numbers(rt: HostRuntime) {
    malformed(
        &rt,
        &[
            b"L 1 2 3\n",
            b"L 1 2 3 4 5\n",
            b"X\n",
            b"T 1 2\n",
            b"K\n",
            b"E 1\n",
            b"E 1 2 3\n",
            b"S 1\n",
            b"Z\n",
            b"Z 0 0\n",
        ],
    );
}

#[test]
fn wrongly_closed(rt: HostRuntime) {
    let cases: [(&[u8], u16); 10] = [
        (b"", 1),
        (b"S\n", 2),
        (b"Z 1\n", 1),
        (b"S\nZ 0\n", 2),
        (b"S\nZ 2\n", 2),
        (b"Z 0\nS\n", 1),
        (b"Z 0\nZ 1\n", 1),
        (b"S\nZ 1\nZ 1\n", 2),
        (b"Z 0\n\n", 1),
        (b"S\nZ 1\nS", 2),
    ];
    for (text, line) in cases {
        turned_down(&rt, text, Refusal::WronglyClosed, line);
    }
}

#[test]
fn first_faulty_line(rt: HostRuntime) {
    turned_down(&rt, b"S\nS", Refusal::LineMalformed, 2);
    turned_down(&rt, b"S\nx\nZ 5\n", Refusal::LineMalformed, 2);
    turned_down(&rt, b"S\nZ 5\nx\n", Refusal::WronglyClosed, 2);
}

#[test]
fn accepted(rt: HostRuntime) {
    assert_eq!(rt; check_list(b"Z 0\n"), Ok(0));
    assert_eq!(rt;
        check_list(b"L 0 1 2 3\nX 0\nT 65535\nO\nK 4095\nE 1 2\nS\nZ 7\n"),
        Ok(7)
    );
}

// As many lines `S` as `count` says, and then `end`.
fn counts_then(heap: Global, count: u16, end: &[u8]) -> Result<Vec<u8>, AllocError> {
    let mut text = Vec::new(heap);
    for _ in 0..count {
        text.push(b'S')?;
        text.push(b'\n')?;
    }
    for b in end {
        text.push(*b)?;
    }
    Ok(text)
}

#[test]
fn longest(rt: HostRuntime) -> Result<(), Fail> {
    let full = counts_then(rt.alloc(), 32764, b"Z 32764\n")?;
    assert_eq!(rt; full.len(), 65536);
    assert_eq!(rt; check_list(&full), Ok(32764));
    let longer = counts_then(rt.alloc(), 32764, b"Z 32764\n\n")?;
    turned_down(&rt, &longer, Refusal::TextTooLong, 0);
    Ok(())
}

#[test]
fn last_lines(rt: HostRuntime) -> Result<(), Fail> {
    let malformed = counts_then(rt.alloc(), 32766, b"x\n")?;
    turned_down(&rt, &malformed, Refusal::LineMalformed, 32767);
    let miscounted = counts_then(rt.alloc(), 32764, b"Z 32763\n")?;
    turned_down(&rt, &miscounted, Refusal::WronglyClosed, 32765);
    let unclosed = counts_then(rt.alloc(), 32768, b"")?;
    turned_down(&rt, &unclosed, Refusal::WronglyClosed, 32769);
    Ok(())
}

#[test]
fn orders_in_turn(rt: HostRuntime) -> Result<(), Fail> {
    let orders = [
        Order::Lay(0, 1, 2, 4095),
        Order::Lift(3),
        Order::Turn(10),
        Order::CellsAtVertex(65535),
        Order::CellsAtEdge(1, 2),
        Order::Counts,
    ];
    let mut rest: &[u8] = b"L 0 1 2 4095\nX 3\nT 10\nK 65535\nE 1 2\nS\nZ 6\n";
    for order in orders {
        let (found, more) = next_to_run(rest).ok_or("no order is left")?;
        assert_eq!(rt; found, order);
        rest = more;
    }
    assert!(rt; next_to_run(rest).is_none());
    Ok(())
}

fn accept(numbers: &[u16]) -> Answer<'_> {
    Answer::Ok(numbers)
}

fn refuse(refusal: Refusal) -> Answer<'static> {
    Answer::No(refusal)
}

fn turn_down(refusal: Refusal, line: u16) -> Answer<'static> {
    Answer::Bad(Fault { refusal, line })
}

// The line stands in the first places, with the rest untouched, and does not fit into one place less.
fn says(rt: &impl Abort, answer: Answer<'_>, line: &[u8]) -> Result<(), Fail> {
    let mut out = [7; 32];
    let n = answer.write(&mut out)?;
    assert!(rt; n == line.len() && 0 < n && n <= 32);
    assert_eq!(rt; &out[0..n], line);
    for b in &out[n..] {
        assert_eq!(rt; *b, 7);
    }
    let mut short = [7; 32];
    assert_eq!(rt;
        answer.write(&mut short[0..n - 1]),
        Err(Refusal::ListTooShort)
    );
    assert_eq!(rt; short, [7; 32]);
    Ok(())
}

#[test]
fn accepted_lines(rt: HostRuntime) -> Result<(), Fail> {
    says(&rt, accept(&[]), b"ok\n")?;
    says(&rt, accept(&[0]), b"ok 0\n")?;
    says(&rt, accept(&[2, 1, 6]), b"ok 2 1 6\n")?;
    says(
        &rt,
        accept(&[9, 10, 99, 100, 1024, 65535]),
        b"ok 9 10 99 100 1024 65535\n",
    )
}

#[test]
fn refused_lines(rt: HostRuntime) -> Result<(), Fail> {
    says(&rt, refuse(Refusal::VertexTooHigh), b"no 1\n")?;
    says(&rt, refuse(Refusal::HalfFaceJoined), b"no 17\n")?;
    says(&rt, turn_down(Refusal::LineMalformed, 7), b"bad 5 7\n")?;
    says(
        &rt,
        turn_down(Refusal::WronglyClosed, 32769),
        b"bad 6 32769\n",
    )?;
    says(&rt, turn_down(Refusal::TextTooLong, 0), b"bad 7 0\n")
}
