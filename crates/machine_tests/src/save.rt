use glulx_image::Image;
use quetzal::*;
use std::alloc::Global;
use std::test::*;

/// A story of one page, whose memory ends a page behind its file; the byte tells it from others.
fn story(mark: u8) -> [u8; 256] {
    let header =
        *b"Glul\x00\x03\x01\x03\0\0\x01\0\0\0\x01\0\0\0\x02\0\0\0\x01\0\0\0\0\x24\0\0\0\0\0\0\0\0";
    let mut file = [0; 256];
    file[..36].copy_from_slice(&header);
    file[100] = mark;
    file
}

/// A frame without locals and values, and a call stub for it.
const STACK: [u8; 28] = [
    0, 0, 0, 12, 0, 0, 0, 12, 0, 0, 0, 0, 0, 0, 0, 0, 0, 0, 0, 0, 0, 0, 0, 0x40, 0, 0, 0, 0,
];

/// `go` at 0x100 and the event 3, 1, 2, 0 at 0x120, in a memory of 512 bytes.
const CMEM: [u8; 15] = [0, 0, 2, 0, 0x67, 0x6F, 0, 0x20, 3, 0, 2, 1, 0, 2, 2];

type Part = (&'static [u8; 4], &'static [u8]);

fn form(alloc: Global, header: &[u8], parts: &[Part]) -> Result<Vec<u8>, Fail> {
    let mut body = Vec::new(alloc);
    body.extend_from_slice(b"IFZS")?;
    push(&mut body, b"IFhd", header)?;
    for (name, contents) in parts {
        push(&mut body, name, contents)?;
    }
    let mut bytes = Vec::new(alloc);
    bytes.extend_from_slice(b"FORM")?;
    bytes.extend_from_slice(&(body.len().min(4096) as u32).to_be_bytes())?;
    bytes.extend_from_slice(body.as_slice())?;
    Ok(bytes)
}

fn push(out: &mut Vec<u8>, name: &[u8; 4], contents: &[u8]) -> Result<(), Fail> {
    out.extend_from_slice(name)?;
    out.extend_from_slice(&(contents.len().min(4096) as u32).to_be_bytes())?;
    out.extend_from_slice(contents)?;
    if contents.len() % 2 == 1 {
        out.push(0)?;
    }
    Ok(())
}

/// The cause against these parts by its number, 0 where they are read.
fn refusal(alloc: Global, parts: &[Part]) -> Result<u8, Fail> {
    let file = story(1);
    let image = Image::parse(&file).ok().ok_or("an image")?;
    let bytes = form(alloc, &file[..128], parts)?;
    match read(alloc, bytes.as_slice(), &image) {
        Ok(_) => Ok(0),
        Err(fault) => Ok(fault.number()),
    }
}

#[test]
fn saves_are_read_or_refused_by_their_first_cause(rt: HostRuntime) -> Result<(), Fail> {
    let stack: Part = (b"Stks", &STACK);
    let memory: Part = (b"CMem", &CMEM);
    let cases: [(&[Part], u8); 14] = [
        (&[memory, stack], 0),
        (&[stack, (b"ANNO", b"abc"), memory], 0),
        (&[], 2),
        (&[memory], 2),
        // runs that pass the end, lack their length, and end before it
        (&[(b"CMem", &[0, 0, 2, 0, 0, 255, 0, 0]), stack], 4),
        (&[(b"CMem", &[0, 0, 2, 0, 0, 255, 0]), stack], 4),
        (&[(b"CMem", &[0, 0, 2, 0, 0, 255]), stack], 0),
        (&[(b"CMem", &[0, 0, 1, 0]), stack], 4),
        (&[(b"UMem", &[0, 0, 2, 0, 1]), stack], 4),
        (&[memory, (b"Stks", b"\0\0\0\x0C\0\0\0\x0C\0\0\0")], 5),
        // heaps: none, one without its block's end, two equal blocks, no count
        (&[memory, stack, (b"MAll", b"\0\0\0\0\0\0\0\0")], 0),
        (
            &[
                memory,
                stack,
                (b"MAll", b"\0\0\x02\0\0\0\0\x01\0\0\x02\0\0\0\0\x10"),
            ],
            6,
        ),
        (
            &[
                (b"CMem", &[0, 0, 3, 0]),
                stack,
                (
                    b"MAll",
                    b"\0\0\x02\0\0\0\0\x02\0\0\x02\0\0\0\0\x10\0\0\x02\0\0\0\0\x10",
                ),
            ],
            6,
        ),
        (
            &[
                (b"CMem", &[0, 0, 3, 0]),
                stack,
                (
                    b"MAll",
                    b"\0\0\x02\0\0\0\0\x02\0\0\x02\x10\0\0\0\x20\0\0\x02\0\0\0\0\x10",
                ),
            ],
            0,
        ),
    ];
    for (parts, wanted) in &cases {
        assert_eq!(rt; refusal(rt.alloc(), parts)?, *wanted);
    }
    Ok(())
}

/// Memory as it is: its size of 512 bytes, and a page of zeros.
fn plain_memory(alloc: Global) -> Result<Vec<u8>, Fail> {
    let mut bytes = vec![in alloc; 0; 260]?;
    bytes[2] = 2;
    Ok(bytes)
}

#[test]
fn plain_memory_is_read_beside_an_unknown_chunk(rt: HostRuntime) -> Result<(), Fail> {
    let file = story(1);
    let image = Image::parse(&file).ok().ok_or("an image")?;
    let mut bytes = Vec::new(rt.alloc());
    bytes.extend_from_slice(b"FORM\0\0\x01\xC8IFZS")?;
    push(&mut bytes, b"IFhd", &file[..128])?;
    push(&mut bytes, b"ANNO", b"abc")?;
    push(&mut bytes, b"UMem", &plain_memory(rt.alloc())?)?;
    push(&mut bytes, b"Stks", &STACK)?;
    assert!(rt; read(rt.alloc(), bytes.as_slice(), &image).is_ok());
    Ok(())
}
