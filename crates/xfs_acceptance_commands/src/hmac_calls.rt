use xfs_hmac::{Key, Mac, mac, upper};

const COUNTED_KEY: [u8; 25] = [
    1, 2, 3, 4, 5, 6, 7, 8, 9, 10, 11, 12, 13, 14, 15, 16, 17, 18, 19, 20, 21, 22, 23, 24, 25,
];

// The digits of the HMAC of a message that comes in pieces of one size.
fn digits_in_pieces(key: &[u8], message: &[u8], size: usize) -> [u8; 64] {
    let mut mac = Mac::new(key);
    if size > 0 {
        for piece in message.chunks(size) {
            mac.update(piece);
        }
    }
    upper(&mac.finish())
}

#[test]
fn the_cases_of_rfc_4231_whole_and_in_pieces(rt: HostRuntime) {
    let cases: [(&[u8], &[u8], &[u8; 64]); 6] = [
        (
            &[0x0b; 20],
            b"Hi There",
            b"B0344C61D8DB38535CA8AFCEAF0BF12B881DC200C9833DA726E9376C2E32CFF7",
        ),
        (
            b"Jefe",
            b"what do ya want for nothing?",
            b"5BDCC146BF60754E6A042426089575C75A003F089D2739839DEC58B964EC3843",
        ),
        (
            &[0xaa; 20],
            &[0xdd; 50],
            b"773EA91E36800E46854DB8EBD09181A72959098B3EF8C122D9635514CED565FE",
        ),
        (
            &COUNTED_KEY,
            &[0xcd; 50],
            b"82558A389A443C0EA4CC819899F2083A85F0FAA3E578F8077A2E3FF46729665B",
        ),
        (
            &[0xaa; 131],
            b"Test Using Larger Than Block-Size Key - Hash Key First",
            b"60E431591EE0B67F0D8A26AACBF5B77F8E0BC6213728C5140546040F0EE37F54",
        ),
        (
            &[0xaa; 131],
            b"This is a test using a larger than block-size key and a larger than block-size data. The key needs to be hashed before being used by the HMAC algorithm.",
            b"9B09FFA71B942FCB27635FBCD5B0E944BFDC63644F0713938A7F51535C3A35E2",
        ),
    ];
    for (key, message, digits) in cases {
        assert!(rt; upper(&mac(key, message)) == *digits);
        let prepared = Key::new(key);
        for _ in 0..2 {
            assert!(rt; upper(&prepared.mac(message)) == *digits);
        }
        for size in [1, 7, 64] {
            assert!(rt;
                digits_in_pieces(key, message, size) == *digits,
                "in pieces of {size}"
            );
        }
    }
}
