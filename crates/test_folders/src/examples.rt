//! The example of the README of `ss_folder`, and what no clause says: that the calls of the system do what they are for.
use ss_folder::{Folder, Unknown};
use ss_journal::{Disk, JournalError, Look};
use std::fs;
use std::os::unix::fs::{MetadataExt, symlink};
use std::test::Fail;

const TORN: &str = "ss_folder_torn";

const OTHERS: &str = "ss_folder_others";

const ENDINGS: &str = "ss_folder_endings";

const MOVED: &str = "ss_folder_moved";

const FILE: &str = "ss_folder_others/log-21.open";

/// The SHA-256 of "abc" (FIPS 180-4's first example).
const SUM: [u8; 32] = [
    0xba, 0x78, 0x16, 0xbf, 0x8f, 0x01, 0xcf, 0xea, 0x41, 0x41, 0x40, 0xde, 0x5d, 0xae, 0x22, 0x23,
    0xb0, 0x03, 0x61, 0xa3, 0x96, 0x17, 0x7a, 0x9c, 0xb4, 0x10, 0xff, 0x61, 0xf2, 0x00, 0x15, 0xad,
];

#[test]
fn readme(rt: HostRuntime) -> Result<(), Fail> {
    let _ = fs::remove_dir_all(&rt, "live");
    fs::create_dir(&rt, "live")?;
    let mut folder = Folder::open(rt.clone()?, "live", "gate", Unknown)?;
    folder.create(7)?;
    folder.sync_names()?;
    folder.append(7, b"abc")?;
    folder.sync(7)?;
    let sum = folder.digest(7)?;
    assert_eq!(rt; sum, SUM);
    folder.append(7, b"torn")?;
    let look = folder.look()?;
    assert_eq!(rt; look, Look { top: 7, written: 7 });
    folder.create(12)?;
    let look = folder.look()?;
    assert_eq!(rt;
        look,
        Look {
            top: 12,
            written: 7
        }
    );
    let mode = fs::metadata(&rt, "live/gate-7.open")?.mode();
    assert_eq!(rt; mode & 0o137, 0);
    let octets = folder.settle(rt.alloc(), 0)?;
    assert_eq!(rt; octets.len(), 0);
    folder.sync(0)?;
    fs::remove_dir_all(&rt, "live")?;
    Ok(())
}

#[test]
fn torn_ends_are_kept(rt: HostRuntime) -> Result<(), Fail> {
    let alloc = rt.alloc();
    let _ = fs::remove_dir_all(&rt, TORN);
    fs::create_dir(&rt, TORN)?;
    fs::write(&rt, "ss_folder_torn/log-7.open", b"abctorn".as_slice())?;
    let mut folder = Folder::open(rt.clone()?, TORN, "log", Unknown)?;
    let octets = folder.settle(alloc, 7)?;
    assert_eq!(rt; octets.as_slice(), b"abctorn".as_slice());
    assert!(rt; octets.len() >= 3);
    folder.set_aside(7, b"torn")?;
    folder.set_aside(7, b"again")?;
    folder.cut(7, 3)?;
    folder.sync(7)?;
    let sum = folder.digest(7)?;
    assert_eq!(rt; sum, SUM);
    folder.append(7, b"d")?;
    let octets = folder.settle(alloc, 7)?;
    assert_eq!(rt; octets.as_slice(), b"abcd".as_slice());
    let first = fs::read(&rt, "ss_folder_torn/log-7.torn")?;
    assert_eq!(rt; first.as_slice(), b"torn".as_slice());
    let second = fs::read(&rt, "ss_folder_torn/log-7.torn-2")?;
    assert_eq!(rt; second.as_slice(), b"again".as_slice());
    fs::remove_dir_all(&rt, TORN)?;
    Ok(())
}

#[test]
fn any_ending_uses_a_name_up(rt: HostRuntime) -> Result<(), Fail> {
    let alloc = rt.alloc();
    let _ = fs::remove_dir_all(&rt, ENDINGS);
    fs::create_dir(&rt, ENDINGS)?;
    fs::write(&rt, "ss_folder_endings/log-7.open", b"abc".as_slice())?;
    let mut folder = Folder::open(rt.clone()?, ENDINGS, "log", Unknown)?;
    for (name, ending) in [
        (8, "frames"),
        (9, "frames.gz"),
        (10, "torn"),
        (11, "torn-2"),
        (12, "open.gz"),
        (13, ""),
    ] {
        let path = format!(in alloc; "{ENDINGS}/log-{name}.{ending}")?;
        fs::write(&rt, path.as_str(), b"x".as_slice())?;
        let look = folder.look()?;
        assert_eq!(rt;
            look,
            Look {
                top: name,
                written: 7
            }
        );
    }
    fs::create_dir(&rt, "ss_folder_endings/log-20.open")?;
    let look = folder.look()?;
    assert_eq!(rt;
        look,
        Look {
            top: 20,
            written: 7
        }
    );
    fs::rename(
        &rt,
        "ss_folder_endings/log-7.open",
        "ss_folder_endings/log-7.frames",
    )?;
    let look = folder.look()?;
    assert_eq!(rt;
        look,
        Look {
            top: 20,
            written: 0
        }
    );
    assert!(rt; matches!(folder.settle(alloc, 7), Err(JournalError::Failed)));
    fs::remove_dir_all(&rt, ENDINGS)?;
    Ok(())
}

#[test]
fn what_others_do_is_seen(rt: HostRuntime) -> Result<(), Fail> {
    let alloc = rt.alloc();
    let _ = fs::remove_dir_all(&rt, OTHERS);
    let _ = fs::remove_dir_all(&rt, MOVED);
    fs::create_dir(&rt, OTHERS)?;
    for called in [
        "log-040.open",
        "log-0.open",
        "old-50.open",
        "log-60",
        "target",
    ] {
        let path = format!(in alloc; "{OTHERS}/{called}")?;
        fs::write(&rt, path.as_str(), b"x".as_slice())?;
    }
    symlink(&rt, "target", "ss_folder_others/log-20.open")?;
    let mut folder = Folder::open(rt.clone()?, OTHERS, "log", Unknown)?;
    let look = folder.look()?;
    assert_eq!(rt;
        look,
        Look {
            top: 20,
            written: 0
        }
    );
    assert!(rt; matches!(folder.settle(alloc, 20), Err(JournalError::Failed)));
    assert!(rt; matches!(folder.settle(alloc, 21), Err(JournalError::Failed)));
    fs::write(&rt, FILE, b"one".as_slice())?;
    let mut folder = Folder::open(rt.clone()?, OTHERS, "log", Unknown)?;
    let _ = folder.settle(alloc, 21)?;
    folder.sync(21)?;
    fs::write(&rt, FILE, b"one more".as_slice())?;
    assert!(rt; matches!(folder.sync(21), Err(JournalError::Failed)));
    let mut folder = Folder::open(rt.clone()?, OTHERS, "log", Unknown)?;
    let octets = folder.settle(alloc, 21)?;
    assert_eq!(rt; octets.as_slice(), b"one more".as_slice());
    fs::rename(&rt, FILE, "ss_folder_others/moved")?;
    fs::write(&rt, FILE, b"one more".as_slice())?;
    assert!(rt; matches!(folder.sync(21), Err(JournalError::Failed)));
    fs::rename(&rt, OTHERS, MOVED)?;
    fs::create_dir(&rt, OTHERS)?;
    assert!(rt; matches!(folder.sync_names(), Err(JournalError::Failed)));
    fs::remove_dir_all(&rt, OTHERS)?;
    fs::remove_dir_all(&rt, MOVED)?;
    Ok(())
}
