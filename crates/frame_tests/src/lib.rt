//! Worked lines, each refusal at its edge, and buffers of every length near a line's.

#![tactic(auto)]

#[cfg(test)]
mod tests {
    use frame::*;
    use std::process::Abort;

    // Frames and their lines, worked by hand.
    const LINES: [(Frame, &str); 10] = [
        (
            Frame::Map {
                reach: 8,
                planariser: 2,
                host: 1,
            },
            "4d0008020158",
        ),
        (
            Frame::Map {
                reach: 65535,
                planariser: 255,
                host: 255,
            },
            "4dffffffff49",
        ),
        (Frame::Node { x: 13, y: 7 }, "4e000d000762"),
        (Frame::Node { x: 256, y: 1 }, "4e0100000150"),
        (
            Frame::Packet {
                source: 0,
                target: 3,
            },
            "50000353",
        ),
        (Frame::Withdraw { node: 5 }, "57055c"),
        (Frame::Return { node: 5 }, "520557"),
        (
            Frame::Hop {
                sender: 0,
                receiver: 1,
            },
            "48000149",
        ),
        (
            Frame::End {
                source: 0,
                target: 3,
                end: 1,
                total: 3,
            },
            "4400030100034b",
        ),
        (
            Frame::End {
                source: 1,
                target: 2,
                end: 3,
                total: 0x1234,
            },
            "44010203123490",
        ),
    ];

    // What a place of a buffer holds that nothing was written to, and a length beyond every line's.
    const MARK: u8 = b'#';

    const ROOM: usize = 20;

    #[test]
    fn reads_each_kind(rt: HostRuntime) {
        for (frame, line) in LINES {
            assert_eq!(rt; read_line(line.as_bytes()), Ok(frame), "{}", line);
        }
    }

    // Writes a frame into the first places of a buffer of marks, and looks at the whole of it.
    fn written(rt: &impl Abort, frame: Frame, text: &[u8], room: usize) {
        assert!(rt; room <= ROOM);
        let mut buf = [MARK; ROOM];
        let answer = write_line(frame, &mut buf[0..room]);
        let mut expected = [MARK; ROOM];
        if room < text.len() {
            assert_eq!(rt; answer, Err(ShortBuffer));
        } else {
            assert_eq!(rt; answer, Ok(text.len()));
            expected[0..text.len()].copy_from_slice(text);
        }
        assert_eq!(rt; buf, expected);
    }

    #[test]
    fn writes_into_buffers(rt: HostRuntime) {
        for (frame, line) in LINES {
            let text = line.as_bytes();
            assert!(rt; !text.is_empty());
            written(&rt, frame, text, text.len() - 1);
            written(&rt, frame, text, text.len());
            written(&rt, frame, text, ROOM);
        }
        assert_eq!(rt; u8::from(ShortBuffer), 17);
    }

    #[test]
    fn refuses_lines(rt: HostRuntime) {
        let zeros = [b'0'; 81];
        let mut strays = zeros;
        strays[0] = b'x';
        let cases: [(&[u8], LineFault, u8); 15] = [
            (&zeros, LineFault::TooLong, 10),
            (&strays, LineFault::TooLong, 10),
            (&strays[0..80], LineFault::NotDigit { at: 0 }, 11),
            (b"4D0008020158", LineFault::NotDigit { at: 1 }, 11),
            (b"57055c\n", LineFault::NotDigit { at: 6 }, 11),
            (b"5/055c", LineFault::NotDigit { at: 1 }, 11),
            (b"57:55c", LineFault::NotDigit { at: 2 }, 11),
            (b"570`5c", LineFault::NotDigit { at: 3 }, 11),
            (b"5705gc", LineFault::NotDigit { at: 4 }, 11),
            (b"57055F", LineFault::NotDigit { at: 5 }, 11),
            (b"4x0y", LineFault::NotDigit { at: 1 }, 11),
            (b"4dx", LineFault::NotDigit { at: 2 }, 11),
            (b"4", LineFault::Odd { digits: 1 }, 12),
            (b"57055", LineFault::Odd { digits: 5 }, 12),
            (&zeros[0..79], LineFault::Odd { digits: 79 }, 12),
        ];
        for (line, fault, number) in cases {
            assert_eq!(rt; read_line(line), Err(FrameFault::Line(fault)));
            assert_eq!(rt; u8::from(fault), number);
            assert_eq!(rt; u8::from(FrameFault::Line(fault)), number);
        }
    }

    #[test]
    fn refuses_frames(rt: HostRuntime) {
        let zeros = [b'0'; 80];
        let cases: [(&[u8], FrameFault, u8); 11] = [
            (b"", FrameFault::TooShort, 13),
            (b"57", FrameFault::TooShort, 13),
            (b"57055b", FrameFault::WrongSum, 14),
            (b"57055d", FrameFault::WrongSum, 14),
            (b"5800", FrameFault::WrongSum, 14),
            (b"5700", FrameFault::WrongSum, 14),
            (b"0000", FrameFault::UnknownKind, 15),
            (&zeros, FrameFault::UnknownKind, 15),
            (b"58055d", FrameFault::UnknownKind, 15),
            (b"5858", FrameFault::UnknownKind, 15),
            (b"5757", FrameFault::WrongLength, 16),
        ];
        for (line, fault, number) in cases {
            assert_eq!(rt; read_line(line), Err(fault));
            assert_eq!(rt; u8::from(fault), number);
        }
    }

    // Each kind with one byte less and one more than it has, the sum right.
    #[test]
    fn refuses_other_lengths(rt: HostRuntime) {
        let lines = [
            "4d01020353",
            "4d01020304055c",
            "4e01020354",
            "4e01020304055d",
            "500151",
            "5001020356",
            "5757",
            "5701025a",
            "5252",
            "52010255",
            "480149",
            "480102034e",
            "44010203044e",
            "4401020304050659",
        ];
        for line in lines {
            assert_eq!(rt;
                read_line(line.as_bytes()),
                Err(FrameFault::WrongLength),
                "{}",
                line
            );
        }
    }
}
