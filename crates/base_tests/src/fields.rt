use byte_fields::{
    put, put_u8, put_u16, put_u32, put_u64, put_zeros, read_u8, read_u16, read_u32, read_u64,
};

// Each field in turn, and 2 of 0xee. The numbers' bytes are written out by hand.
static WRITTEN: [u8; 24] = [
    1, 2, 3, 4, 5, 6, 7, 8, 10, 11, 12, 13, 14, 15, 16, 86, 74, 83, 49, 0, 0, 0, 0xee, 0xee,
];

// Fields side by side; and numbers at the start, at the end and across the fields.
#[test]
fn fields_are_put_and_read(rt: HostRuntime) {
    let mut out = [0xee; 24];
    put_u64(&mut out, 0, 0x0807_0605_0403_0201);
    put_u32(&mut out, 8, 0x0d0c_0b0a);
    put_u16(&mut out, 12, 0x0f0e);
    put_u8(&mut out, 14, 0x10);
    put(&mut out, 15, b"VJS1");
    put_zeros(&mut out, 19, 3);
    let read = [
        read_u64(&WRITTEN, 0),
        read_u64(&WRITTEN, 1),
        u64::from(read_u32(&WRITTEN, 15)),
        u64::from(read_u16(&WRITTEN, 22)),
        u64::from(read_u8(&WRITTEN, 23)),
    ];
    let wanted = [
        0x0807_0605_0403_0201,
        0x0a08_0706_0504_0302,
        0x3153_4a56,
        0xeeee,
        0xee,
    ];
    assert_eq!(rt; (out, read), (WRITTEN, wanted));
}
