// Tests of the word format on examples: the expected words are those of docs/WORDS.md.
#![tactic(auto)]

#[cfg(test)]
mod tests {
    use calls::{ByIdCall, Call, LookedAt, Refusal, Stop, Transfer, UnknownRefusal};
    use report::{end_line, word_line};
    use std::process::Abort;
    use std::test::Fail;
    use words::{Answer, LONGEST_TEXT, read_answer, read_call, write_answer, write_call};

    // A call is written as these bytes, is read from them again, and writing that gives the same bytes.
    fn both_ways(rt: &impl Abort, call: Call<&[u8]>, words: &[u8]) -> Result<(), Fail> {
        let mut out = [0xee; 400];
        let size = write_call(call, &mut out)?;
        assert_eq!(rt; size, words.len());
        assert!(rt; size <= 400);
        assert!(rt; &out[0..size] == words);
        assert!(rt; out[size..400].iter().copied().max() == Some(0xee) || size == 400);
        let mut text = [0; LONGEST_TEXT];
        let (read, rest) = read_call(words, &mut text)?.ok_or_else(|| Fail::new(
            "no call was found",
        ))?;
        assert_eq!(rt; read, call);
        assert!(rt; rest.is_empty());
        let mut again = [0xee; 400];
        assert_eq!(rt; write_call(read, &mut again)?, size);
        assert!(rt; &again[0..size] == words);
        Ok(())
    }

    // No call begins these bytes.
    fn is_unlawful(rt: &impl Abort, words: &[u8]) {
        let mut text = [0; LONGEST_TEXT];
        assert_eq!(rt; read_call(words, &mut text), Err(Refusal::Unlawful));
    }

    // Every kind and sub-kind of one word, at the limits of its fields.
    #[test]
    fn calls_of_one_word(rt: HostRuntime) -> Result<(), Fail> {
        let table: [(Call<&[u8]>, u32); 24] = [
            (Call::Kill, 0x2000_0000),
            (Call::Suspend, 0x2100_0000),
            (Call::SetLevel { level: 0 }, 0x2200_0000),
            (Call::SetLevel { level: 255 }, 0x2200_00ff),
            (
                Call::ById {
                    id: 0,
                    call: ByIdCall::Kill,
                },
                0x3000_0000,
            ),
            (
                Call::ById {
                    id: 255,
                    call: ByIdCall::Kill,
                },
                0x3000_ff00,
            ),
            (
                Call::ById {
                    id: 1,
                    call: ByIdCall::Ready,
                },
                0x3100_0100,
            ),
            (
                Call::ById {
                    id: 2,
                    call: ByIdCall::Suspend,
                },
                0x3200_0200,
            ),
            (
                Call::ById {
                    id: 3,
                    call: ByIdCall::SetLevel { level: 255 },
                },
                0x3300_03ff,
            ),
            (
                Call::ById {
                    id: 4,
                    call: ByIdCall::Status,
                },
                0x3400_0400,
            ),
            (
                Call::Send {
                    cell: 0,
                    message: 0,
                    stay: false,
                },
                0x5000_0000,
            ),
            (
                Call::Send {
                    cell: 255,
                    message: 65535,
                    stay: true,
                },
                0x51ff_ffff,
            ),
            (Call::Wait { cell: 255 }, 0x60ff_0000),
            (Call::Delay { ticks: 65535 }, 0x7000_ffff),
            (
                Call::Transfer {
                    unit: 255,
                    transfer: Transfer::Read { length: 255 },
                },
                0x82ff_00ff,
            ),
            (
                Call::Transfer {
                    unit: 0,
                    transfer: Transfer::Read { length: 0 },
                },
                0x8200_0000,
            ),
            (
                Call::Transfer {
                    unit: 3,
                    transfer: Transfer::ReadLine,
                },
                0x8303_0000,
            ),
            (Call::Service { unit: 255 }, 0x90ff_0000),
            (Call::Tick, 0xa000_0000),
            (
                Call::Look {
                    at: LookedAt::Message,
                },
                0xb000_0000,
            ),
            (
                Call::Look {
                    at: LookedAt::Start,
                },
                0xb100_0000,
            ),
            (
                Call::Look {
                    at: LookedAt::Outcome,
                },
                0xb200_0000,
            ),
            (
                Call::Transfer {
                    unit: 1,
                    transfer: Transfer::Write { text: b"" },
                },
                0x8001_0000,
            ),
            (
                Call::Transfer {
                    unit: 1,
                    transfer: Transfer::WriteLine { text: b"" },
                },
                0x8101_0000,
            ),
        ];
        for (call, word) in table {
            both_ways(&rt, call, &word.to_be_bytes())?;
        }
        Ok(())
    }

    // A word and the bits that it names: a change of any other bit makes it unlawful, or another call in the rows
    // where the sub-kind is what changes.
    #[test]
    fn unnamed_bits(rt: HostRuntime) {
        let table: [(u32, u32); 15] = [
            (0x2000_0000, 0xff00_0000),
            (0x2100_0000, 0xff00_0000),
            (0x2200_0008, 0xff00_00ff),
            (0x3000_0100, 0xff00_ff00),
            (0x3100_0100, 0xff00_ff00),
            (0x3200_0100, 0xff00_ff00),
            (0x3300_0108, 0xff00_ffff),
            (0x3400_0100, 0xff00_ff00),
            (0x5009_0005, 0xf1ff_ffff),
            (0x6009_0000, 0xf0ff_0000),
            (0x7000_0001, 0xf000_ffff),
            (0x8202_0003, 0xffff_00ff),
            (0x8302_0000, 0xffff_0000),
            (0x9001_0000, 0xf0ff_0000),
            (0xa000_0000, 0xf000_0000),
        ];
        for (word, named) in table {
            for bit in 0..32u32 {
                let flip = 1u32 << bit;
                if named & flip == 0 {
                    is_unlawful(&rt, &(word ^ flip).to_be_bytes());
                }
            }
        }
    }

    // Kinds that are never calls, sub-kinds past the last, data words astray or missing, and odd bytes.
    #[test]
    fn unlawful_words(rt: HostRuntime) {
        let words: [u32; 17] = [
            0x0000_0000,
            0x0000_0041,
            0x4000_0000,
            0xc000_0000,
            0xd000_0001,
            0xe000_0000,
            0xf000_0000,
            0x2300_0000,
            0x3500_0000,
            0x5200_0000,
            0x8400_0000,
            0xb300_0000,
            0x1005_0a00,
            0x1005_0a01,
            0x1105_0a00,
            0x8003_0001,
            0x8103_0004,
        ];
        for word in words {
            is_unlawful(&rt, &word.to_be_bytes());
        }
        is_unlawful(&rt, b"\x20");
        is_unlawful(&rt, b"\x20\x00\x00");
        is_unlawful(&rt, b"\x10\x05\x0a\x00\x00\x00\x02\x00");
        is_unlawful(&rt, b"\x10\x05\x0a\x00\x00\x00\x02\x00\x00\x01\x00\x07");
        is_unlawful(&rt, b"\x10\x05\x0a\x00\x10\x00\x02\x00\x00\x00\x00\x07");
        is_unlawful(&rt, b"\x80\x03\x00\x01\x00\x41\x00\x01");
        is_unlawful(&rt, b"\x80\x03\x00\x02\x00\x41\x42\x01");
        is_unlawful(&rt, b"\x80\x03\x00\x01\x10\x41\x00\x00");
        is_unlawful(&rt, b"\x80\x03\x00\x04\x00\x41\x42\x43\x00\x44\x00");
    }

    // Words with data words.
    #[test]
    fn calls_with_data(rt: HostRuntime) -> Result<(), Fail> {
        both_ways(
            &rt,
            Call::Create {
                id: 5,
                level: 10,
                start: 512,
                message: 7,
            },
            b"\x10\x05\x0a\x00\x00\x00\x02\x00\x00\x00\x00\x07",
        )?;
        both_ways(
            &rt,
            Call::Create {
                id: 255,
                level: 255,
                start: 65535,
                message: 65535,
            },
            b"\x10\xff\xff\x00\x00\x00\xff\xff\x00\x00\xff\xff",
        )?;
        both_ways(
            &rt,
            Call::Transfer {
                unit: 3,
                transfer: Transfer::Write { text: b"A" },
            },
            b"\x80\x03\x00\x01\x00A\x00\x00",
        )?;
        both_ways(
            &rt,
            Call::Transfer {
                unit: 3,
                transfer: Transfer::WriteLine { text: b"A\r" },
            },
            b"\x81\x03\x00\x02\x00A\r\x00",
        )?;
        both_ways(
            &rt,
            Call::Transfer {
                unit: 3,
                transfer: Transfer::Write { text: b"ABC" },
            },
            b"\x80\x03\x00\x03\x00ABC",
        )?;
        both_ways(
            &rt,
            Call::Transfer {
                unit: 3,
                transfer: Transfer::Write { text: b"ABCD" },
            },
            b"\x80\x03\x00\x04\x00ABC\x00D\x00\x00",
        )
    }

    fn write_text(text: &[u8], out: &mut [u8]) -> Result<usize, Refusal> {
        write_call(
            Call::Transfer {
                unit: 1,
                transfer: Transfer::Write { text },
            },
            out,
        )
    }

    // Long texts: their words take four bytes for each three, and what does not fit leaves all as it was.
    #[test]
    fn long_texts(rt: HostRuntime) {
        let text = [0x41; 256];
        let mut out = [0xee; 344];
        assert_eq!(rt; write_text(&text[0..80], &mut out), Ok(112));
        assert_eq!(rt; write_text(&text[0..254], &mut out), Ok(344));
        assert_eq!(rt; write_text(&text[0..255], &mut out), Ok(344));
        assert_eq!(rt; out[3], 255);
        let mut small = [0xee; 111];
        assert_eq!(rt; write_text(&text[0..80], &mut small), Err(Refusal::NoRoom));
        assert_eq!(rt; small.iter().copied().min(), Some(0xee));
        assert_eq!(rt; small.iter().copied().max(), Some(0xee));
    }

    // A text and a read above 255 bytes are refused before the room is looked at.
    #[test]
    fn too_long(rt: HostRuntime) {
        let text = [0x41; 256];
        let calls: [Call<&[u8]>; 2] = [
            Call::Transfer {
                unit: 1,
                transfer: Transfer::Write { text: &text },
            },
            Call::Transfer {
                unit: 1,
                transfer: Transfer::Read { length: 256 },
            },
        ];
        for call in calls {
            let mut out = [0xee; 3];
            assert_eq!(rt; write_call(call, &mut out), Err(Refusal::BadLength));
            assert_eq!(rt; out, [0xee; 3]);
        }
    }

    // The ten call words of the worked example are eight calls.
    #[test]
    fn worked_calls(rt: HostRuntime) -> Result<(), Fail> {
        let bytes =
            b"\x10\x05\x0a\x00\x00\x00\x02\x00\x00\x00\x00\x07\x83\x00\x00\x00\x90\x00\x00\x00\x90\x00\x00\x00\xb2\x00\x00\x00\x20\x00\x00\x00\x20\x00\x00\x00\x20\x00\x00\x00";
        let sizes = [12, 4, 4, 4, 4, 4, 4, 4];
        let mut rest: &[u8] = bytes;
        for size in sizes {
            let mut text = [0; LONGEST_TEXT];
            let (_, after) = read_call(rest, &mut text)?.ok_or_else(|| Fail::new(
                "no call was found",
            ))?;
            assert_eq!(rt; after.len() + size, rest.len());
            rest = after;
        }
        let mut text = [0; LONGEST_TEXT];
        assert_eq!(rt; read_call(rest, &mut text), Ok(None));
        Ok(())
    }

    // An answer is written as these bytes and is read from them again.
    fn answers(
        rt: &impl Abort,
        running: Option<u8>,
        reply: Result<u16, Refusal>,
        text: &[u8],
        words: &[u8],
    ) -> Result<(), Fail> {
        let answer = Answer {
            running,
            reply,
            text,
        };
        let mut out = [0; 48];
        let size = write_answer(answer, &mut out)?;
        assert!(rt; size <= 48);
        assert!(rt; &out[0..size] == words);
        let mut room = [0; LONGEST_TEXT];
        let (read, rest) = read_answer(words, &mut room)?.ok_or_else(|| Fail::new(
            "no answer was found",
        ))?;
        assert!(rt; rest.is_empty());
        assert_eq!(rt; read, answer);
        Ok(())
    }

    // The answers of the worked example, and one refusal.
    #[test]
    fn worked_answers(rt: HostRuntime) -> Result<(), Fail> {
        answers(&rt, Some(0), Ok(1), b"", b"\xc0\x00\x00\x01")?;
        answers(&rt, Some(1), Ok(0), b"", b"\xc0\x01\x00\x00")?;
        answers(
            &rt,
            Some(0),
            Ok(0x2502),
            b"A\r",
            b"\xc0\x00\x25\x02\x00A\r\x00",
        )?;
        answers(&rt, None, Ok(0), b"", b"\xc0\xff\x00\x00")?;
        answers(&rt, None, Err(Refusal::NoTask), b"", b"\xd0\xff\x00\x01")?;
        answers(
            &rt,
            Some(63),
            Err(Refusal::NoRoom),
            b"",
            b"\xd0\x3f\x00\x11",
        )?;
        let mut out = [7; 7];
        let text: &[u8] = b"A\r";
        assert_eq!(rt;
            write_answer(
                Answer {
                    running: Some(0),
                    reply: Ok(0x2502),
                    text,
                },
                &mut out,
            ),
            Err(Refusal::NoRoom)
        );
        assert_eq!(rt; out, [7; 7]);
        Ok(())
    }

    // No answer begins these bytes.
    fn no_answer(rt: &impl Abort, words: &[u8]) {
        let mut room = [0; LONGEST_TEXT];
        assert_eq!(rt; read_answer(words, &mut room), Err(Refusal::Unlawful));
    }

    #[test]
    fn unlawful_answers(rt: HostRuntime) {
        no_answer(&rt, b"\x20\x00\x00\x00");
        no_answer(&rt, b"\xc1\x00\x00\x00");
        no_answer(&rt, b"\xd0\x00\x00\x00");
        no_answer(&rt, b"\xd0\x00\x00\x12");
        no_answer(&rt, b"\x00A\r\x00");
        no_answer(&rt, b"\xc0\x00\x25\x02\x00A\r\x01");
        no_answer(&rt, b"\xc0\x00\x25\x00\x00A\r\x00");
        no_answer(&rt, b"\xd0\x00\x00\x01\x00A\r\x00");
        no_answer(&rt, b"\xc0\x00\x00");
    }

    // A refusal and its number, both ways, and what is told of a number that no refusal has.
    #[test]
    fn refusal_numbers(rt: HostRuntime) -> Result<(), Fail> {
        assert_eq!(rt; u8::from(Refusal::NoRoom), 17);
        assert_eq!(rt; Refusal::try_from(17), Ok(Refusal::NoRoom));
        assert_eq!(rt; Refusal::try_from(18), Err(UnknownRefusal(18)));
        let unknown = UnknownRefusal(18);
        assert!(rt;
            format!(in rt.alloc(); "{unknown}")?.as_str() == "no refusal has the number 18"
        );
        Ok(())
    }

    // The lines of the worked example: an answer word and the last line.
    #[test]
    fn lines(rt: HostRuntime) -> Result<(), Fail> {
        assert_eq!(rt; word_line(0xc000_2502), *b"C0002502\n");
        assert_eq!(rt; word_line(0x0041_0d00), *b"00410D00\n");
        assert_eq!(rt; word_line(0x89ab_cdef), *b"89ABCDEF\n");
        assert!(rt; end_line(rt.alloc(), 8, Stop::End)?.as_str() == "end 8 0\n");
        assert!(rt; end_line(rt.alloc(), 2, Stop::Unlawful { place: 4 })?.as_str() == "end 2 14\n");
        assert!(rt; end_line(rt.alloc(), 1000, Stop::NoRoom)?.as_str() == "end 1000 17\n");
        Ok(())
    }
}
