//! What no clause says: worked texts with their faults, the texts of a small report and a small state, and that memory suffices.

ghost use Rattle.std.specs.Prelude.{IfOk};
ghost use Rattle.script_text.specs.ReportText.{report_of, AreMarksRising};

use crate::built::parse;
use crate::fault::{ScriptFault, ScriptRefusal, kind_name};
use crate::laws::{one_program, one_refusal, report_text_law};
use crate::printing::print;
use crate::report::Report;
use crate::report_reading::{ReportRefusal, read_report};
use crate::reporting::report_text;
use crate::script::Script;
use crate::stating::state_text;
use crate::whole::read_script;
use life_model::{Mark, Outcome};
use seq_object::{Command, Entry, Pair, Reply};
use std::alloc::Global;
use std::test::Fail;

const BASE: &str =
    "respct 1\nthreads 2\nshards 1\nlines 16\nevery 1\nturns rr 5\nkeep none\nthread 0\nput 1 2\ndeq\nthread 1\nget 7\nend\n";

// The text of one put.
const ONE_PUT: &str =
    "respct 1\nthreads 1\nshards 1\nlines 16\nevery 1\nturns rr 384\nkeep none\nthread 0\nput 5 7\nend\n";

// A line and a kind, which tests compare.
type Place = (u32, u32);

const NO_FAULT: Place = (0, 99);

// The fault that a reader gives, where it gives one.
fn place_of(read: Result<Script, ScriptRefusal>) -> Place {
    match read {
        Ok(_) => NO_FAULT,
        Err(ScriptRefusal::Fault(ScriptFault { line, kind })) => (line, kind),
        Err(ScriptRefusal::OutOfMemory) => (99, 99),
    }
}

// The first fault of a text, where it has one.
fn fault_of(alloc: Global, text: &str) -> Result<Place, Fail> {
    Ok(place_of(read_script(alloc, text.as_bytes())))
}

// A text, where one line of it is another one.
fn text_with(alloc: Global, base: &str, number: usize, with: &str) -> Result<String, Fail> {
    let mut text = String::new(alloc);
    for (index, line) in base.lines().enumerate() {
        if index + 1 == number {
            text.push_str(with)?;
        } else {
            text.push_str(line)?;
        }
        text.push_str("\n")?;
    }
    Ok(text)
}

// The fault of the base text, where one line of it is another one.
fn fault_with(alloc: Global, number: usize, with: &str) -> Result<Place, Fail> {
    let text = text_with(alloc, BASE, number, with)?;
    fault_of(alloc, text.as_str())
}

#[test]
fn short_texts(rt: HostRuntime) -> Result<(), Fail> {
    let rows: [(&str, Place); 5] = [
        ("", (1, 10)),
        ("respct 1", (1, 10)),
        ("respct 1\n", (2, 10)),
        ("respct 2\n", (1, 1)),
        (BASE, NO_FAULT),
    ];
    for (text, fault) in rows {
        assert_eq!(rt; fault_of(rt.alloc(), text)?, fault, "{text}");
    }
    Ok(())
}

// Each row: the number of a line of the base text, another line in its place, and the first fault.
#[test]
fn faults(rt: HostRuntime) -> Result<(), Fail> {
    let rows: [(usize, &str, Place); 62] = [
        (1, "respct  1", (1, 1)),
        (2, "threads ", (2, 3)),
        (2, "threads  1", (2, 2)),
        (2, " threads 1", (2, 2)),
        (2, "threads", (2, 2)),
        (2, "threads 17", (2, 4)),
        (2, "threads 0", (2, 4)),
        (3, "shards 01", (3, 3)),
        (3, "shards 9", (3, 4)),
        (3, "lines 16", (3, 2)),
        (4, "lines 15", (4, 4)),
        (4, "lines 18446744073709551616", (4, 3)),
        (4, "lines 18446744073709551615", (4, 4)),
        (5, "every 1025", (5, 4)),
        (6, "turns rr ", (6, 3)),
        (6, "turns rr 5 ", (6, 5)),
        (6, "turns rr 10000000", NO_FAULT),
        (6, "turns rr 10000001", (6, 4)),
        (6, "turns list", NO_FAULT),
        (6, "turns list ", (6, 3)),
        (6, "turns list 0 1 1", NO_FAULT),
        (6, "turns list 0 2 x", (6, 4)),
        (6, "turns list 0 x 2", (6, 3)),
        (6, "turns seed 18446744073709551615 2", NO_FAULT),
        (6, "turns seed x 10000001", (6, 3)),
        (6, "live 9", NO_FAULT),
        (6, "live", (6, 5)),
        (7, "keep all", NO_FAULT),
        (7, "keep none ", (7, 6)),
        (7, "keep list ", (7, 6)),
        (7, "keep list", NO_FAULT),
        (7, "keep list 0:", (7, 3)),
        (7, "keep list :0", (7, 3)),
        (7, "keep list 0:1:2", (7, 6)),
        (7, "keep list 0:4294967295 34:1", NO_FAULT),
        (7, "keep list 0:4294967296", (7, 4)),
        (7, "keep list 35:1", (7, 4)),
        (7, "keep list 1:1 1:1", (7, 4)),
        (7, "keep list 2:1 1:x 7", (7, 3)),
        (7, "keep seed ", (7, 3)),
        (7, "keep seed 9", NO_FAULT),
        (8, "thread 1", (8, 7)),
        (8, "put 1 2", (8, 7)),
        (9, "put 1 2\r", (9, 3)),
        (9, "put 18446744073709551616 2", (9, 3)),
        (9, "get ", (9, 3)),
        (9, "put 1", (9, 8)),
        (9, "put x y z", (9, 8)),
        (10, "deq ", (10, 8)),
        (10, "end ", (10, 8)),
        (10, " end", (10, 8)),
        (10, "", (10, 8)),
        (10, "threads 1", (10, 8)),
        (10, "end", (10, 7)),
        (10, "thread 0", (10, 7)),
        (10, "thread x", (10, 7)),
        (11, "take", (13, 7)),
        (12, "thread 2", (12, 7)),
        (12, "del 3\nenq 4", NO_FAULT),
        (13, "take", (14, 10)),
        (13, "end\n", (14, 11)),
        (13, "end\nx", (14, 11)),
    ];
    for (number, with, fault) in rows {
        assert_eq!(rt; fault_with(rt.alloc(), number, with)?, fault, "{with}");
    }
    Ok(())
}

// The fault of a text of so many threads, each with so many of the longest commands.
fn fault_of_filled(alloc: Global, threads: u32, commands: u32) -> Result<Place, Fail> {
    let mut text = format!(in alloc;
        "respct 1\nthreads {threads}\nshards 8\nlines 16\nevery 1\nturns rr 5\nkeep none\n"
    )?;
    for thread in 0..threads {
        writeln!(text, "thread {thread}")?;
        for _ in 0..commands {
            text.push_str("put 18446744073709551615 18446744073709551615\n")?;
        }
    }
    text.push_str("end\n")?;
    fault_of(alloc, text.as_str())
}

#[test]
fn many_commands(rt: HostRuntime) -> Result<(), Fail> {
    assert_eq!(rt; fault_of_filled(rt.alloc(), 16, 4096)?, NO_FAULT);
    assert_eq!(rt; fault_of_filled(rt.alloc(), 1, 4097)?, (4105, 9));
    Ok(())
}

#[test]
fn prints_what_it_read(rt: HostRuntime) -> Result<(), Fail> {
    let alloc = rt.alloc();
    let text =
        "respct 1\nthreads 1\nshards 8\nlines 65536\nevery 1024\nturns list 0 0\nkeep list 0:1 7:0\nthread 0\nput 18446744073709551615 0\nenq 3\ntake\nend\n";
    match read_script(alloc, text.as_bytes()) {
        Ok(script) => {
            let printed = print(alloc, &script)?;
            assert_eq!(rt; printed.as_slice(), text.as_bytes());
        }
        Err(_) => assert!(rt; false),
    }
    one_program();
    Ok(())
}

// The fault that the reader of what is carried out gives, where it gives one.
fn parse_fault(alloc: Global, text: &str) -> Place {
    place_of(parse(alloc, text.as_bytes()))
}

// Each row: the number of a line of the text of one put, another line in its place, and the fault.
#[test]
fn scripts_that_are_carried_out(rt: HostRuntime) -> Result<(), Fail> {
    let alloc = rt.alloc();
    let rows: [(usize, &str, Place); 13] = [
        (3, "shards 8", NO_FAULT),
        (6, "turns seed 1 384", NO_FAULT),
        (6, "turns list 0 0", NO_FAULT),
        (6, "live 384", (0, 0)),
        (6, "live 10000001", (6, 4)),
        (6, "turns rr 10000001", (6, 4)),
        (7, "keep seed 1", NO_FAULT),
        (9, "take", NO_FAULT),
        (9, "get 05", (9, 3)),
        (9, "put 18446744073709551616 1", (9, 3)),
        (10, "thread 1\nend", (10, 7)),
        (2, "threads 2", (10, 7)),
        (10, "deq", (11, 10)),
    ];
    for (number, with, fault) in rows {
        let text = text_with(alloc, ONE_PUT, number, with)?;
        assert_eq!(rt; parse_fault(alloc, text.as_str()), fault, "{with}");
    }
    Ok(())
}

#[test]
fn scripts_of_two_threads(rt: HostRuntime) -> Result<(), Fail> {
    let alloc = rt.alloc();
    let rows: [(&str, Place); 3] = [
        (BASE, NO_FAULT),
        (
            "respct 1\nthreads 2\nshards 1\nlines 16\nevery 1\nturns rr 0\nkeep none\nthread 0\nthread 2\nend\n",
            (9, 7),
        ),
        (
            "respct 1\nthreads 1\nshards 1\nlines 16\nevery 1\nturns rr 384\nkeep none\nthread 0\nput 5 7\n",
            (10, 10),
        ),
    ];
    for (text, fault) in rows {
        assert_eq!(rt; parse_fault(alloc, text), fault, "{text}");
    }
    one_refusal();
    Ok(())
}

#[test]
fn names_of_kinds(rt: HostRuntime) -> Result<(), Fail> {
    let names = [
        "not built",
        "head",
        "setting",
        "number",
        "range",
        "turns",
        "keep",
        "thread",
        "command",
        "too many",
        "no end",
        "after",
        "unknown",
    ];
    for (kind, name) in names.iter().enumerate() {
        assert_eq!(rt; kind_name(kind as u32), *name);
    }
    Ok(())
}

#[test]
fn reports(rt: HostRuntime) -> Result<(), Fail> {
    let alloc = rt.alloc();
    let put = Entry {
        thread: 0,
        index: 0,
        command: Command::Put(5, 7),
        reply: Reply::New,
    };
    let get = Entry {
        thread: 0,
        index: 1,
        command: Command::Get(5),
        reply: Reply::Found(7),
    };
    let report = Report {
        resumed: false,
        began: 1,
        entries: vec![in alloc; put, get]?,
        marks: Vec::new(alloc),
        held: Vec::new(alloc),
        flushed: 0,
        outcome: Outcome::Finished,
    };
    let text = report_text(alloc, &report)?;
    let wanted =
        "respct-report 1\nlife start\nbegan 1\nentry 0 0 put 5 7 = new\nentry 0 1 get 5 = is 7\nflushed 0\nend finished\n";
    assert_eq!(rt; text.as_slice(), wanted.as_bytes());
    Ok(())
}

#[test]
fn report_with_a_mark(rt: HostRuntime) -> Result<(), Fail> {
    let alloc = rt.alloc();
    let enq = Entry {
        thread: 1,
        index: 2,
        command: Command::Enq(9),
        reply: Reply::Done,
    };
    let mark = Mark {
        epoch: 4,
        length: 0,
    };
    let report = Report {
        resumed: true,
        began: 3,
        entries: vec![in alloc; enq]?,
        marks: vec![in alloc; mark]?,
        held: vec![in alloc; 1]?,
        flushed: 6,
        outcome: Outcome::Cut,
    };
    let text = report_text(alloc, &report)?;
    let wanted =
        "respct-report 1\nlife resume\nbegan 3\nsaved 4\nentry 1 2 enq 9 = done\nheld 1\nflushed 6\nend cut\n";
    assert_eq!(rt; text.as_slice(), wanted.as_bytes());
    Ok(())
}

#[test]
fn states(rt: HostRuntime) -> Result<(), Fail> {
    let alloc = rt.alloc();
    let pairs = [Pair { key: 5, value: 7 }];
    let text = state_text(alloc, 2, &[1, 0], &pairs, &[3, 4])?;
    let wanted = "respct-state 1\nepoch 2\nthread 0 1\nthread 1 0\nmap 5 7\nitem 3\nitem 4\nend\n";
    assert_eq!(rt; text.as_slice(), wanted.as_bytes());
    Ok(())
}

// The report of one put, which is saved.
const PUT_REPORT: &str =
    "respct-report 1\nlife start\nbegan 1\nentry 0 0 put 5 7 = new\nsaved 2\nflushed 5\nend finished\n";

// The report of a short text.
fn report_in(alloc: Global, text: &str) -> Result<Report, ReportRefusal>
    ensures rising { IfOk result (λ report. AreMarksRising (report_of report)) }
{
    if text.len() > 1000 {
        return Err(ReportRefusal::OutOfMemory);
    }
    read_report(alloc, text.as_bytes())
}

// The line at which reading of a report fails; 0 where it does not, and 99 where memory ran out.
fn fault_line(read: Result<Report, ReportRefusal>) -> u32 {
    match read {
        Ok(_) => 0,
        Err(ReportRefusal::Fault(line)) => line,
        Err(ReportRefusal::OutOfMemory) => 99,
    }
}

#[test]
fn a_report_and_back(rt: HostRuntime) -> Result<(), Fail> {
    let alloc = rt.alloc();
    match report_in(alloc, PUT_REPORT) {
        Ok(report) => {
            assert!(rt; !report.resumed);
            assert_eq!(rt; report.began, 1);
            assert_eq!(rt; report.entries.len(), 1);
            assert_eq!(rt;
                report.marks.as_slice(),
                [Mark {
                    epoch: 2,
                    length: 1
                }]
                .as_slice()
            );
            assert_eq!(rt; report.flushed, 5);
            let text = report_text(alloc, &report)?;
            assert_eq!(rt; text.as_slice(), PUT_REPORT.as_bytes());
        }
        Err(_) => assert!(rt; false),
    }
    report_text_law();
    Ok(())
}

// Each row: the number of a line of the report of one put, other lines in its place, and the line of the fault, 0 where there is none.
#[test]
fn faults_of_reports(rt: HostRuntime) -> Result<(), Fail> {
    let alloc = rt.alloc();
    let rows: [(usize, &str, u32); 14] = [
        (1, "respct-report 2", 1),
        (2, "life", 2),
        (3, "began 0", 3),
        (4, "entry 16 0 put 5 7 = new", 4),
        (4, "entry 0 00 put 5 7 = new", 4),
        (4, "entry 0 0 put +5 7 = new", 4),
        (4, "entry 0 0 take = was 7", 0),
        (5, "saved 3", 5),
        (5, "saved 2\nsaved 3", 0),
        (6, "held 3\nheld 2\nflushed 5", 7),
        (6, "held 0\nheld 25\nflushed 5", 0),
        (6, "flushed 18446744073709551616", 6),
        (7, "end finished now", 7),
        (7, "end cut\n", 8),
    ];
    for (number, with, line) in rows {
        let text = text_with(alloc, PUT_REPORT, number, with)?;
        assert_eq!(rt; fault_line(report_in(alloc, text.as_str())), line, "{with}");
    }
    Ok(())
}

#[test]
fn reports_that_end_too_soon(rt: HostRuntime) -> Result<(), Fail> {
    let alloc = rt.alloc();
    let rows: [(&str, u32); 4] = [
        ("", 1),
        ("respct-report 1\nlife start\nbegan 1\n", 4),
        ("respct-report 1\nlife start\nbegan 1\nflushed 0\n", 5),
        (
            "respct-report 1\nlife start\nbegan 1\nflushed 0\nend cut",
            5,
        ),
    ];
    for (text, line) in rows {
        assert_eq!(rt;
            fault_line(read_report(alloc, text.as_bytes())),
            line,
            "{text}"
        );
    }
    Ok(())
}
