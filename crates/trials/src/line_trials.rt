// Lines at the edges of their numbers, and buffers one byte short.
use refusal::{Fault, Refusal};
use std::process::Abort;
use std::test::Fail;

// The buffer begins with the line, and the rest is as it was.
fn holds(
    rt: &impl Abort,
    made: Result<usize, Refusal>,
    buffer: &[u8],
    line: &[u8],
) -> Result<(), Fail> {
    let length = made.map_err(|_| Fail::new("a line"))?;
    assert!(rt; length <= buffer.len());
    assert!(rt; &buffer[0..length] == line);
    assert!(rt; buffer[length..].iter().all(|byte| *byte == b'.'));
    Ok(())
}

// The buffer is one byte short, and as it was.
fn short(rt: &impl Abort, made: Result<usize, Refusal>, buffer: &[u8]) {
    assert!(rt; made == Err(Refusal::BufferTooShort));
    assert!(rt; buffer.iter().all(|byte| *byte == b'.'));
}

#[test]
fn marks(rt: HostRuntime) -> Result<(), Fail> {
    let mut buffer = [b'.'; 24];
    holds(
        &rt,
        lines::mark_line(&[0, 9, 10, 1023, 65535], &mut buffer),
        &buffer,
        b"0/9/10/1023/65535\n",
    )?;
    let mut buffer = [b'.'; 17];
    short(
        &rt,
        lines::mark_line(&[0, 9, 10, 1023, 65535], &mut buffer),
        &buffer,
    );
    let mut buffer = [b'.'; 4];
    holds(&rt, lines::mark_line(&[], &mut buffer), &buffer, b"\n")
}

#[test]
fn closing_lines(rt: HostRuntime) -> Result<(), Fail> {
    let mut buffer = [b'.'; 60];
    let most = u64::MAX;
    let line = b"issued 18446744073709551615 dead 0 spent 1023\n";
    holds(
        &rt,
        lines::closing_line(most, 0, 1023, &mut buffer),
        &buffer,
        line,
    )?;
    let mut buffer = [b'.'; 45];
    short(
        &rt,
        lines::closing_line(most, 0, 1023, &mut buffer),
        &buffer,
    );
    Ok(())
}

#[test]
fn fault_lines(rt: HostRuntime) -> Result<(), Fail> {
    let mut buffer = [b'.'; 20];
    let fault = Fault {
        refusal: Refusal::TooMany,
        place: 9,
    };
    holds(
        &rt,
        lines::fault_line(fault, &mut buffer),
        &buffer,
        b"fault 3 11 9\n",
    )?;
    let mut buffer = [b'.'; 12];
    short(&rt, lines::fault_line(fault, &mut buffer), &buffer);
    Ok(())
}
