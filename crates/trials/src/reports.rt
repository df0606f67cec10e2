// Reports on traces: inputs written out, good and damaged, and pseudo-random ones against the meter by windows.
use crate::chance::Chance;
use crate::windows::{FIGURE, Limits, Windows};
use std::alloc::{AllocError, AllocGlobal, Global};
use std::fmt::Write;
use std::process::Abort;
use std::test::Fail;
use tokens::calls::{Answer, Call};
use traces::arguments::{Arguments, Form, Misuse, read_arguments};
use traces::report::{Ending, complaint, conform};

const FORMS: [Form; 3] = [Form::Token, Form::Schedule, Form::Leaky];

impl Limits {
    // All three forms of meter report this text on a trace, and end so.
    fn expect(
        self,
        rt: &(impl Abort + AllocGlobal),
        trace: &[u8],
        text: &str,
        ending: Ending,
    ) -> Result<(), Fail> {
        let Limits { rate, burst } = self;
        for form in FORMS {
            let report = conform(rt.alloc(), Arguments { rate, burst, form }, trace)?;
            assert_eq!(rt; report.text.as_str(), text);
            assert_eq!(rt; report.ending, ending);
        }
        Ok(())
    }
}

#[test]
fn whole_traces(rt: HostRuntime) -> Result<(), Fail> {
    let none = "passed 0 of 0 packets, 0 of 0 tokens\n";
    FIGURE.expect(&rt, b"", none, Ending::Complete)?;
    let figure =
        "1 1500 0 yes\n2 1 999 no\n3 1 1000 yes\n4 1501 3600000000 no\npassed 2 of 4 packets, 1501 of 3003 tokens\n";
    let ended = b"1500 0\n1 999\n1 1000\n1501 3600000000\n";
    FIGURE.expect(&rt, ended, figure, Ending::Complete)?;
    let open = b"1500 0\n1 999\n1 1000\n1501 3600000000";
    FIGURE.expect(&rt, open, figure, Ending::Complete)?;
    let zeros = "1 7 8 yes\npassed 1 of 1 packets, 7 of 7 tokens\n";
    FIGURE.expect(&rt, b"0007 08\n", zeros, Ending::Complete)?;
    let largest = "1 4294967295 86400000000 no\npassed 0 of 1 packets, 0 of 4294967295 tokens\n";
    let limits = Limits {
        rate: 100_000_000,
        burst: 1_000_000_000,
    };
    limits.expect(&rt, b"4294967295 86400000000\n", largest, Ending::Complete)
}

#[test]
fn faults(rt: HostRuntime) -> Result<(), Fail> {
    let no_rate = Limits { rate: 0, ..FIGURE };
    no_rate.expect(&rt, b"1 0\n", "fault 0 16\n", Ending::Fault)?;
    let high_burst = Limits {
        burst: 1_000_000_001,
        ..FIGURE
    };
    high_burst.expect(&rt, b"nonsense", "fault 0 16\n", Ending::Fault)?;
    let traces = [
        ("1 5\n0 6\n1 7\n", "1 1 5 yes\nfault 2 8\n"),
        ("1 5\n1 4\n1 7\n", "1 1 5 yes\nfault 2 10\n"),
        ("1 5\n1 86400000001\n", "1 1 5 yes\nfault 2 11\n"),
        ("1 5\n1 18446744073709551616\n", "1 1 5 yes\nfault 2 11\n"),
        ("1 5\n0 4\n", "1 1 5 yes\nfault 2 8\n"),
    ];
    for (trace, text) in traces {
        FIGURE.expect(&rt, trace.as_bytes(), text, Ending::Fault)?;
    }
    Ok(())
}

const DAMAGED: [&str; 14] = [
    "",
    " ",
    "7",
    "7 ",
    " 7",
    " 7 8",
    "7 8 ",
    "7  8",
    "7\t8",
    "7 8 9",
    "7 8\r",
    "-7 8",
    "+7 8",
    "4294967296 8",
];

#[test]
fn lines_that_are_no_packets(rt: HostRuntime) -> Result<(), Fail> {
    for line in DAMAGED {
        let trace = format!(in rt.alloc(); "1 5\n2 6\n{line}\n1 9\n")?;
        let text = "1 1 5 yes\n2 2 6 yes\n";
        FIGURE.expect(&rt, trace.as_bytes(), text, Ending::NotTwoNumbers(3))?;
    }
    FIGURE.expect(&rt, b"\xff\xfe 5\n", "", Ending::NotTwoNumbers(1))
}

// What the user is told of a wrong word.
fn text_of(rate: &str, burst: &str, form: &str) -> Option<&'static str> {
    read_arguments(rate, burst, form).err().map(Misuse::text)
}

// The same, as it prints.
fn misuse(heap: Global, rate: &str, burst: &str, form: &str) -> Result<Option<String>, AllocError> {
    read_arguments(rate, burst, form)
        .err()
        .map(|misuse| misuse.to_string(heap))
        .transpose()
}

#[test]
fn what_the_user_is_told(rt: HostRuntime) -> Result<(), Fail> {
    let told = complaint(rt.alloc(), 12)?;
    assert_eq!(rt;
        told.as_str(),
        "line 12 is not two numbers, TOKENS up to 4294967295 and MOMENT, with one space between"
    );
    assert_eq!(rt;
        text_of("x", "1", "token"),
        Some("RATE is not a whole number")
    );
    assert_eq!(rt;
        misuse(rt.alloc(), "x", "1", "token")?.as_deref(),
        Some("RATE is not a whole number")
    );
    assert_eq!(rt;
        text_of("1", "", "token"),
        Some("BURST is not a whole number")
    );
    assert_eq!(rt;
        misuse(rt.alloc(), "1", "", "token")?.as_deref(),
        Some("BURST is not a whole number")
    );
    assert_eq!(rt;
        text_of("1", "1", "tokens"),
        Some("FORM is none of token, schedule and leaky")
    );
    assert_eq!(rt;
        misuse(rt.alloc(), "1", "1", "tokens")?.as_deref(),
        Some("FORM is none of token, schedule and leaky")
    );
    assert_eq!(rt; misuse(rt.alloc(), "1", "1", "schedule")?.as_deref(), None);
    Ok(())
}

// A trace of pseudo-random packets, and the report that the meter by windows would give of it.
fn random_report(rt: &(impl Abort + AllocGlobal), seed: u64) -> Result<(), Fail> {
    let mut chance = Chance::new(seed);
    let limits = Limits {
        rate: chance.between(1, 50_000),
        burst: chance.between(1, 9_000),
    };
    let mut windows = Windows::new(rt.alloc(), limits)?;
    let mut trace = String::new(rt.alloc());
    let mut text = String::new(rt.alloc());
    // One loop: the sums run on with the lines.
    let mut moment: u64 = 0;
    let mut passed: u64 = 0;
    let mut sum: u64 = 0;
    let mut passed_sum: u64 = 0;
    for number in 1..=60u64 {
        let size = chance.between(1, 1_600);
        moment = moment.saturating_add(chance.between(0, 90_000));
        let tokens = u32::try_from(size).unwrap_or(1);
        let passes = windows.put(Call::Charge { tokens, moment })? == Ok(Answer::Yes);
        // The two words that a line may end with.
        let verdict = if passes { "yes" } else { "no" };
        sum = sum.saturating_add(size);
        if passes {
            passed = passed.saturating_add(1);
            passed_sum = passed_sum.saturating_add(size);
        }
        writeln!(trace, "{size} {moment}")?;
        writeln!(text, "{number} {size} {moment} {verdict}")?;
    }
    if chance.one_in(2) {
        writeln!(trace, "0 {moment}")?;
        writeln!(text, "fault 61 8")?;
        return limits.expect(rt, trace.as_bytes(), text.as_str(), Ending::Fault);
    }
    writeln!(
        text,
        "passed {passed} of 60 packets, {passed_sum} of {sum} tokens"
    )?;
    limits.expect(rt, trace.as_bytes(), text.as_str(), Ending::Complete)
}

#[test]
fn reports_agree_with_windows(rt: HostRuntime) -> Result<(), Fail> {
    for seed in 0..100 {
        random_report(&rt, seed)?;
    }
    Ok(())
}
