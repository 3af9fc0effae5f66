//! What no clause says: frames that GDB 13.1 sends and takes, and each call on its way.
use gdb_frames::{Advance, Found, FrameReader, push_framed};
use std::alloc::{AllocError, Global};

// An input, and what is found in it: `$`, data and `;` for a packet, `bad;`, `+`, `-`.
const INPUTS: [(&'static str, &'static str); 17] = [
    ("$Hg0#df", "$Hg0;"),
    ("+$vMustReplyEmpty#3a", "+$vMustReplyEmpty;"),
    (
        "$QStartNoAckMode#b0+$qTStatus#49",
        "$QStartNoAckMode;+$qTStatus;",
    ),
    ("$#00", "$;"),
    ("$p20#D2", "$p20;"),
    ("$g#68", "bad;"),
    ("$g#zz$g#67", "bad;$g;"),
    ("$g#6 7$?#3f", "bad;$?;"),
    ("$abc$?#3f", "$?;"),
    ("$?#$?#3f", "bad;"),
    ("-$?#3f-", "-$?;-"),
    ("+++\u{3}junk$qC#b4", "+++$qC;"),
    ("$a-b+c#7e", "$a-b+c;"),
    ("$?#3f$?#3", "$?;"),
    ("$?#3f$?#", "$?;"),
    ("$?#3f$?", "$?;"),
    ("", ""),
];

// Appends what was found.
fn push_found(text: &mut Vec<u8>, found: Found, body: &[u8]) -> Result<(), AllocError> {
    match found {
        Found::Packet => {
            text.push(b'$')?;
            text.extend_from_slice(body)?;
            text.push(b';')?;
        }
        Found::BadPacket => text.extend_from_slice(b"bad;")?,
        Found::Ack => text.push(b'+')?,
        Found::Again => text.push(b'-')?,
    }
    Ok(())
}

// What is found in an input, byte by byte.
fn found_in(alloc: Global, input: &str) -> Result<Vec<u8>, AllocError> {
    let mut reader = FrameReader::new(alloc);
    let mut text = Vec::new(alloc);
    for byte in input.as_bytes() {
        if let Some(found) = reader.read(*byte)? {
            push_found(&mut text, found, reader.body())?;
        }
    }
    Ok(text)
}

#[test]
fn inputs(rt: HostRuntime) -> Result<(), AllocError> {
    for (input, wanted) in &INPUTS {
        let text = found_in(rt.alloc(), input)?;
        assert_eq!(rt; text.as_slice(), wanted.as_bytes(), "{input}");
    }
    Ok(())
}

// Texts, and their frames.
const FRAMES: [(&'static str, &'static str); 7] = [
    ("", "$#00"),
    ("OK", "$OK#9a"),
    ("E01", "$E01#a6"),
    ("a#b", "$a}\u{3}b#43"),
    ("$", "$}\u{4}#81"),
    ("*", "$}\n#87"),
    ("}", "$}]#da"),
];

#[test]
fn frames(rt: HostRuntime) -> Result<(), AllocError> {
    for (text, wanted) in &FRAMES {
        let mut out = Vec::new(rt.alloc());
        push_framed(&mut out, text.as_bytes())?;
        assert_eq!(rt; out.as_slice(), wanted.as_bytes(), "{text}");
    }
    Ok(())
}

#[test]
fn advances(rt: HostRuntime) {
    let mut reader = FrameReader::new(rt.alloc());
    let first = Advance {
        used: 7,
        found: Some(Found::Packet),
    };
    assert_eq!(rt; reader.advance(b"xx$g#67-$"), Ok(first));
    assert_eq!(rt; reader.body(), b"g".as_slice());
    let all = Advance {
        used: 2,
        found: None,
    };
    assert_eq!(rt; reader.advance(b"$?"), Ok(all));
    let last = Advance {
        used: 3,
        found: Some(Found::BadPacket),
    };
    assert_eq!(rt; reader.advance(b"#3e"), Ok(last));
}
