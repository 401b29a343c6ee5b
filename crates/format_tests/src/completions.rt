//! Completions, events, and the statuses of syndromes.

use cqe_format::{Cqe, Syndrome, decode_cqe, decode_eqe, encode_cqe, encode_eqe, opcode};
use std::test::Fail;
use verbs_types::EventRecord;

// A good send completion of queue pair 0x41, counter 3.
fn send() -> Cqe {
    Cqe {
        opcode: opcode::REQUEST,
        sop: 0x0a,
        qpn: 0x41,
        srqn: 0,
        imm: 0,
        len: 64,
        counter: 3,
        syndrome: 0,
        solicited: false,
        format: 0,
    }
}

// Words 4 to 7 of an entry whose others are 0.
fn entry(words: [u64; 4]) -> [u64; 8] {
    [0, 0, 0, 0, words[0], words[1], words[2], words[3]]
}

fn with_byte(mut words: [u64; 8], place: usize, byte: u8) -> [u64; 8] {
    let shift = 56 - 8 * (place % 8);
    let k = place / 8 % 8;
    words[k] = words[k] & !(0xff << shift) | (byte as u64) << shift;
    words
}

#[test]
fn last_word_of_a_send(rt: HostRuntime) -> Result<(), Fail> {
    let c = send();
    assert!(rt; c.is_completion());
    let mut words = encode_cqe(&c);
    assert_eq!(rt; words[7], 0x0a00_0041_0003_0000);
    words[7] |= 1;
    assert_eq!(rt; decode_cqe(&words), Ok(c));
    Ok(())
}

// Entries and their fields as another reader of the same layouts gives them.
#[test]
fn completions_of_each_kind(rt: HostRuntime) -> Result<(), Fail> {
    for (words, c) in [
        (
            [0, 0x0a, 0, 0x1123_7699_a611_0000],
            Cqe {
                sop: 0x11,
                qpn: 2_324_121,
                len: 10,
                counter: 42_513,
                ..send()
            },
        ),
        (
            [0x0000_0006_bb61_eca5, 0x13a7_004c, 0, 0x0098_ed72_e21d_0012],
            Cqe {
                opcode: 1,
                sop: 0,
                qpn: 10_022_258,
                srqn: 6,
                imm: 3_143_756_965,
                len: 329_711_692,
                counter: 57_885,
                solicited: true,
                ..send()
            },
        ),
        (
            [0x00c4_0000_0000_0000, 0xa4, 0, 0x00dd_8dea_6164_0022],
            Cqe {
                opcode: 2,
                sop: 0,
                qpn: 14_519_786,
                srqn: 12_845_056,
                len: 164,
                counter: 24_932,
                solicited: true,
                ..send()
            },
        ),
        (
            [0x0000_000b_7d20_6e37, 0xdd, 0, 0x00f4_ea7e_7b4d_0032],
            Cqe {
                opcode: 3,
                sop: 0,
                qpn: 16_050_814,
                srqn: 11,
                imm: 2_099_277_367,
                len: 221,
                counter: 31_565,
                solicited: true,
                ..send()
            },
        ),
        (
            [0, 0, 0, 0x50],
            Cqe {
                opcode: 5,
                sop: 0,
                qpn: 0,
                len: 0,
                counter: 0,
                ..send()
            },
        ),
        (
            [0, 0, 1, 0x0085_1f20_a277_00d2],
            Cqe {
                opcode: 13,
                sop: 0,
                qpn: 8_724_256,
                len: 0,
                counter: 41_591,
                syndrome: 1,
                solicited: true,
                ..send()
            },
        ),
        (
            [0x0000_0004_0000_0000, 0, 0x11, 0x00f0_2041_1262_00e2],
            Cqe {
                opcode: 14,
                sop: 0,
                qpn: 15_736_897,
                srqn: 4,
                len: 0,
                counter: 4_706,
                syndrome: 0x11,
                solicited: true,
                ..send()
            },
        ),
    ] {
        assert!(rt; c.is_completion());
        assert_eq!(rt; encode_cqe(&c), entry(words));
        assert_eq!(rt; decode_cqe(&entry(words)), Ok(c));
    }
    Ok(())
}

#[test]
fn events_of_each_kind(rt: HostRuntime) -> Result<(), Fail> {
    let completion = EventRecord::Completion { cq: 783_156_687 };
    let words = [0, 0, 0, 0, 0, 0, 0, 0x2eae_05cf_0000_0000];
    assert_eq!(rt; encode_eqe(&completion), words);
    assert_eq!(rt; decode_eqe(&with_byte(words, 63, 1)), Ok(completion));
    let error = EventRecord::CqError { cq: 10 };
    let words = [
        0x0004_0000_0000_0000,
        0,
        0,
        0,
        0x0000_000a_0000_0000,
        0,
        0,
        0,
    ];
    assert_eq!(rt; encode_eqe(&error), words);
    assert_eq!(rt; decode_eqe(&with_byte(words, 63, 1)), Ok(error));
    Ok(())
}

#[test]
fn statuses_of_syndromes(rt: HostRuntime) -> Result<(), Fail> {
    for (number, status) in [
        (0x01, 1),
        (0x02, 2),
        (0x04, 4),
        (0x05, 5),
        (0x10, 7),
        (0x11, 8),
        (0x12, 9),
        (0x13, 10),
        (0x14, 11),
        (0x15, 12),
        (0x16, 13),
        (0x22, 16),
    ] {
        let syndrome = Syndrome::from_number(number).ok_or("a syndrome")?;
        assert_eq!(rt; syndrome.number(), number);
        assert_eq!(rt; syndrome.status(), status);
        assert_eq!(rt; Syndrome::from_status(status), Some(syndrome));
    }
    assert_eq!(rt; Syndrome::from_number(0), None);
    assert_eq!(rt; Syndrome::from_status(3), None);
    Ok(())
}
