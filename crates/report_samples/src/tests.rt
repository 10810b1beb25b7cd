//! What is printed of sample plan files: one that passes, and one for each kind of refusal.

use report::report;
use std::test::Fail;

/// A file and what is printed of it.
struct Case {
    text: &'static str,
    printed: &'static str,
}

const CASES: [Case; 12] = [
    // the four-node plan passes
    Case {
        text: "01000704\n020001010302\n020002020401\n030001000001\n030001000002\n030002000003\n04000200030003\n",
        printed: "passed\nbook 7\nnodes 4\ndemands 2\nunits 3\nslots 3\nloads 2 3 1 0\n",
    },
    // a ring and nothing else
    Case {
        text: "01ffff03\n04000000000000\n",
        printed: "passed\nbook 65535\nnodes 3\ndemands 0\nunits 0\nslots 0\nloads 0 0 0\n",
    },
    // no text at all stops early, on line 1
    Case {
        text: "",
        printed: "refused 18\ncause the frame may not come here or the text stops early\nline 1\ntext \n",
    },
    // an upper-case digit; a backslash and a tab are shown as such
    Case {
        text: "01000704\n0A\\\t\n",
        printed: "refused 16\ncause the line is not pairs of lower-case hexadecimal digits and a line feed\nline 2\ncharacter 2\ntext 0A\\\\\\x09\n",
    },
    // a missing line feed
    Case {
        text: "01000704",
        printed: "refused 16\ncause the line is not pairs of lower-case hexadecimal digits and a line feed\nline 1\ncharacter 9\ntext 01000704\n",
    },
    // an unknown kind
    Case {
        text: "01000704\n09\n",
        printed: "refused 17\ncause no frame has this kind and length\nline 2\ntext 09\n",
    },
    // text after the end
    Case {
        text: "01000704\n04000000000000\n01000704\n",
        printed: "refused 18\ncause the frame may not come here or the text stops early\nline 3\ntext 01000704\n",
    },
    // two nodes
    Case {
        text: "01000702\n04000000000000\n",
        printed: "refused 1\ncause the ring size is not 3 to 16\nline 1\ntext 01000702\n",
    },
    // 49 units on the second demand line
    Case {
        text: "01000704\n020001010302\n020002020431\n04000200000000\n",
        printed: "refused 6\ncause the units are not 1 to 48\nline 3\nplace 2\ntext 020002020431\n",
    },
    // the last row moved to slot 2
    Case {
        text: "01000704\n020001010302\n020002020401\n030001000001\n030001000002\n030002000002\n04000200030003\n",
        printed: "refused 23\ncause the row shares a slot and a link with an earlier one\nline 6\nrow 3\nmet 2\ntext 030002000002\n",
    },
    // one unit too few
    Case {
        text: "01000704\n020001010302\n030001000001\n04000100010001\n",
        printed: "refused 24\ncause the demand has not as many rows as units\nline 2\nplace 1\ntext 020001010302\n",
    },
    // another slot count in the end frame
    Case {
        text: "01000704\n020001010301\n030001000001\n04000100010002\n",
        printed: "refused 19\ncause the figures of the end frame are wrong\nline 4\ntext 04000100010002\n",
    },
];

#[test]
fn files_are_reported(rt: HostRuntime) -> Result<(), Fail> {
    for case in &CASES {
        let found = report(rt.alloc(), case.text.as_bytes())?;
        assert!(rt; found.as_str() == case.printed, "{}", case.printed);
    }
    Ok(())
}
