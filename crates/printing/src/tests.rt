// Each text, displayed: it is written to its end.
use crate::{
    CallLine, Calls, Counts, Hex, Level, MessageLine, Messages, Printed, ProfileRefused, Refused,
    Step, Waiting, Word,
};
use drivers::Call;
use std::test::Fail;

fn call(kind: u8) -> Call {
    Call {
        kind,
        driver: 3,
        name: 65535,
        argument: 4294967295,
        level: 0x3fef_fdff_bff7_feff,
    }
}

#[test]
fn numbers(rt: HostRuntime) -> Result<(), Fail> {
    let heap = rt.alloc();
    assert_eq!(rt; Printed(Word(0)).to_string(heap)?.as_str(), " 0");
    assert_eq!(rt;
        Printed(Word(u64::MAX)).to_string(heap)?.as_str(),
        " 18446744073709551615"
    );
    assert_eq!(rt;
        Printed(Level(0)).to_string(heap)?.as_str(),
        " 0000000000000000"
    );
    assert_eq!(rt;
        Printed(Level(0x3ff0_0000_0000_0000))
            .to_string(heap)?
            .as_str(),
        " 3ff0000000000000"
    );
    assert_eq!(rt;
        Printed(Hex(&[0, 9, 10, 127, 255]))
            .to_string(heap)?
            .as_str(),
        "00090a7fff"
    );
    Ok(())
}

#[test]
fn records(rt: HostRuntime) -> Result<(), Fail> {
    let heap = rt.alloc();
    let words = [
        "open", "read", "write", "toggle", "command", "playing", "scenes", "current", "load",
        "live",
    ];
    for (kind, word) in (0..10).zip(words) {
        let line = format!(in heap; "call {word} 3 65535 4294967295 3feffdffbff7feff\n")?;
        assert_eq!(rt;
            Printed(CallLine(call(kind))).to_string(heap)?.as_str(),
            line.as_str()
        );
    }
    assert_eq!(rt;
        Printed(MessageLine(&[0xe0, 0x7f, 0x7f]))
            .to_string(heap)?
            .as_str(),
        "message e07f7f\n"
    );
    let two = [0x90, 92, 0, 0xe0, 0x7f, 0x7f];
    assert_eq!(rt;
        Printed(Messages(&two)).to_string(heap)?.as_str(),
        "message 905c00\nmessage e07f7f\n"
    );
    let record = [2, 3, 7, 0, 9, 0, 0, 0, 0, 0, 0, 0, 0, 0, 0xf0, 0x3f];
    let text = Printed(Calls(&record)).to_string(heap)?;
    assert_eq!(rt; text.as_str(), "call write 3 7 9 3ff0000000000000\n");
    Ok(())
}

#[test]
fn lines(rt: HostRuntime) -> Result<(), Fail> {
    let heap = rt.alloc();
    let step = Step {
        what: "restore",
        n: 7,
    };
    let counts = Counts {
        messages: 4,
        calls: 5,
    };
    let waiting = Waiting {
        n: 3,
        call: call(1),
    };
    assert_eq!(rt; Printed(step).to_string(heap)?.as_str(), "restore 7");
    let bytes = Step {
        what: b"restore".as_slice(),
        n: 7,
    };
    assert_eq!(rt; Printed(bytes).to_string(heap)?.as_str(), "restore 7");
    assert_eq!(rt;
        Printed(counts).to_string(heap)?.as_str(),
        " done messages 4 calls 5"
    );
    assert_eq!(rt;
        Printed(ProfileRefused(6)).to_string(heap)?.as_str(),
        "profile refused 6\n"
    );
    assert_eq!(rt;
        Printed(Refused { step, why: 14 }).to_string(heap)?.as_str(),
        "restore 7 refused 14\n"
    );
    assert_eq!(rt;
        Printed(waiting).to_string(heap)?.as_str(),
        "event 3 waiting\ncall read 3 65535 4294967295 3feffdffbff7feff\n"
    );
    Ok(())
}
