use super::*;
use pfc_base::crc::crc32c;
use pfc_base::{BlockSet, Memory};
use std::alloc::Global;
use std::test::Fail;

// A file of 8193 bytes in blocks of 4096, of which the first is held, and one access of one read.
fn example(alloc: Global) -> Result<Cinfo, Memory> {
    let mut claims = BlockSet::new(alloc, 3)?;
    claims.set(0);
    let record = Record {
        attach: 10,
        detach: 10,
        ios: 1,
        duration: 0,
        merged: 0,
        hit: 0,
        missed: 4,
        bypassed: 0,
    };
    let records = Vec::from_slice(alloc, &[record])?;
    Ok(Cinfo {
        block: 4096,
        size: 8193,
        head: Head {
            created: 10,
            accesses: 1,
            records: Records::from_vec(records),
        },
        claims,
    })
}

fn spelled(alloc: Global) -> Result<Vec<u8>, Memory> {
    let cinfo = example(alloc)?;
    encode(alloc, &cinfo)
}

fn is_damaged(alloc: Global, bytes: &[u8], damage: Damage) -> bool {
    decode(alloc, bytes).err() == Some(DecodeRefusal::Damaged(damage))
}

#[test]
fn layout(rt: HostRuntime) -> Result<(), Fail> {
    let bytes = spelled(rt.alloc()).ok().ok_or("memory")?;
    assert_eq!(rt; bytes.len(), 113);
    let header = [
        4, 0, 0, 0, 0, 16, 0, 0, 0, 0, 0, 0, 1, 32, 0, 0, 0, 0, 0, 0, 10, 0, 0, 0, 0, 0, 0, 0, 1,
        0, 0, 0, 0, 0, 0, 0, 1, 0, 0, 0,
    ];
    assert!(rt; bytes.as_slice().starts_with(&header));
    assert_eq!(rt; bytes[44], 1);
    Ok(())
}

#[test]
fn empty_file(rt: HostRuntime) -> Result<(), Fail> {
    let cinfo = Cinfo {
        block: 4096,
        size: 0,
        head: Head {
            created: 10,
            accesses: 0,
            records: Records::new(rt.alloc()),
        },
        claims: BlockSet::new(rt.alloc(), 0).ok().ok_or("memory")?,
    };
    let bytes = encode(rt.alloc(), &cinfo).ok().ok_or("memory")?;
    assert_eq!(rt; bytes.len(), 48);
    assert_eq!(rt; &bytes.as_slice()[44..], [0; 4].as_slice());
    Ok(())
}

#[test]
fn copies(rt: HostRuntime) -> Result<(), Fail> {
    let bytes = spelled(rt.alloc()).ok().ok_or("memory")?;
    let cinfo = decode(rt.alloc(), &bytes)
        .ok()
        .ok_or("these bytes are a cinfo")?;
    let head = cinfo.head.copy(rt.alloc()).ok().ok_or("memory")?;
    assert_eq!(rt; head.created, 10);
    assert_eq!(rt; head.records.into_vec().len(), 1);
    let again = encode(rt.alloc(), &cinfo).ok().ok_or("memory")?;
    assert_eq!(rt; again.as_slice(), bytes.as_slice());
    Ok(())
}

#[test]
fn cut_short(rt: HostRuntime) -> Result<(), Fail> {
    let mut bytes = spelled(rt.alloc()).ok().ok_or("memory")?;
    for len in 0..bytes.len() {
        let damage = if len < 48 {
            Damage::Short
        } else {
            Damage::Shape
        };
        assert!(rt;
            is_damaged(rt.alloc(), &bytes.as_slice()[..len], damage),
            "cut to {len}"
        );
    }
    bytes.push(0)?;
    assert!(rt; is_damaged(rt.alloc(), &bytes, Damage::Shape));
    Ok(())
}

#[test]
fn changed_bytes(rt: HostRuntime) -> Result<(), Fail> {
    let changes = [
        (44, 9, Damage::Shape),
        (44, 3, Damage::BodySum),
        (0, 5, Damage::Version),
        (4, 1, Damage::HeaderSum),
    ];
    for (at, byte, damage) in &changes {
        let mut bytes = spelled(rt.alloc()).ok().ok_or("memory")?;
        assert!(rt; *at < bytes.len());
        bytes[*at] = *byte;
        assert!(rt; is_damaged(rt.alloc(), &bytes, *damage), "byte {at}");
    }
    Ok(())
}

// A header whose checksum is right and whose numbers aren't.
#[test]
fn wrong_numbers_under_a_right_sum(rt: HostRuntime) -> Result<(), Fail> {
    let changes = [(5, 0), (4, 1), (7, 1), (36, 21), (39, 255), (19, 255)];
    for (at, byte) in &changes {
        let mut bytes = spelled(rt.alloc()).ok().ok_or("memory")?;
        assert!(rt; *at < bytes.len() && 44 <= bytes.len());
        bytes[*at] = *byte;
        let (header, _) = bytes.as_slice().split_at(40);
        let sum = crc32c(header).to_le_bytes();
        (&mut bytes.as_mut_slice()[40..44]).copy_from_slice(&sum);
        assert!(rt; is_damaged(rt.alloc(), &bytes, Damage::Shape), "byte {at}");
    }
    Ok(())
}
