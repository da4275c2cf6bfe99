//! Texts of rules.
use crate::{FaultReason, read_rules};
use std::alloc::{AllocError, Global};

// The line, the column and the reason of what is wrong in a text.
fn fault(alloc: Global, text: &[u8]) -> Result<Option<(u64, u64, FaultReason)>, AllocError> {
    match read_rules(alloc, text)? {
        Ok(_) => Ok(None),
        Err(fault) => Ok(Some((fault.line, fault.column, fault.reason))),
    }
}

#[test]
fn refuses_what_is_no_rule(rt: HostRuntime) -> Result<(), AllocError> {
    let rows: [(&[u8], u64, u64, FaultReason); 24] = [
        (b"find x;", 1, 1, FaultReason::RuleWord),
        (b"\n  find x;", 2, 3, FaultReason::NoRule),
        (b"rule A1\n", 1, 6, FaultReason::RuleName),
        (b"rule A\n  look x\n", 2, 3, FaultReason::LineWord),
        (
            b"rule A\n\nrule B\n  find x\n",
            1,
            1,
            FaultReason::NothingFound,
        ),
        (b"rule A\n  find x\n  exact\n", 3, 3, FaultReason::LateExact),
        (b"rule A\n  find $ + 1\n", 2, 9, FaultReason::HoleName),
        (
            b"rule A\n  find 1 + $x:word\n",
            2,
            15,
            FaultReason::HoleSort,
        ),
        (b"rule A\n  find ^x + ^y\n", 2, 13, FaultReason::ManyMarks),
        (b"rule A\n  find x `eq y\n", 2, 11, FaultReason::OpenClass),
        (
            b"rule A\n  find x `equal` y\n",
            2,
            11,
            FaultReason::ClassWord,
        ),
        (
            b"rule A\n  find a `op` b `op2` c `op3` d\n",
            2,
            26,
            FaultReason::TooManyChoices,
        ),
        (b"rule A\n  find x +\n", 2, 8, FaultReason::NoPattern),
        (b"rule A\n  find x; y;\n", 2, 8, FaultReason::NoPattern),
        (b"rule A\n  find x == 'a\n", 2, 8, FaultReason::OpenQuote),
        (
            b"rule A\n  find x == \"a\"\n",
            2,
            8,
            FaultReason::StringInPattern,
        ),
        (
            b"rule A\n  find x\n  where so\n",
            3,
            9,
            FaultReason::ConditionWord,
        ),
        (
            b"rule A\n  find x\n  where some y\n",
            3,
            14,
            FaultReason::Scope,
        ),
        (
            b"rule A\n  find $x\n  where $x == 65536\n",
            3,
            15,
            FaultReason::Number,
        ),
        (
            b"rule A\n  find $x\n  where $x = 1\n",
            3,
            12,
            FaultReason::Relation,
        ),
        (
            b"rule A\n  find $x\n  where followed x y\n",
            3,
            18,
            FaultReason::Token,
        ),
        (
            b"rule A\n  find $x\n  where not joined or quiet x\n",
            3,
            29,
            FaultReason::UnknownHole,
        ),
        (
            b"let a $a $b $c $d $e\n  quiet $a\n",
            1,
            19,
            FaultReason::TooManyGiven,
        ),
        (
            b"let a $a\n  b $a\nlet b $a\n  a $a\n",
            2,
            3,
            FaultReason::ConditionWord,
        ),
    ];
    for (text, line, column, reason) in rows {
        match fault(rt.alloc(), text)? {
            Some(found) => {
                let (found_line, found_column, found_reason) = found;
                let is_so = found_line == line && found_column == column && found_reason == reason;
                assert!(rt; is_so);
            }
            None => assert!(rt; false),
        }
    }
    Ok(())
}
