// By which bytes a device bears a signature. The places are those of libblkid.
ghost use Rattle.std.specs.Prelude.{◌≡◌, map, true};
ghost use Rattle.std.specs.List.{list_all};
ghost use Rattle.md_notices.specs.Signatures.Magics.{is_in_one_sector, sign_of};
ghost use Rattle.md_notices.specs.Signatures.Table.{magics};

use crate::signatures::magic::Magic;
use crate::signatures::signature::Signature;

const MD11: [Magic; 1] = [Magic {
    place: 0,
    bytes: b"\xfc\x4e\x2b\xa9",
}];

const MD12: [Magic; 1] = [Magic {
    place: 4096,
    bytes: b"\xfc\x4e\x2b\xa9",
}];

const LUKS: [Magic; 1] = [Magic {
    place: 0,
    bytes: b"LUKS\xba\xbe",
}];

const LVM2: [Magic; 4] = [
    Magic {
        place: 24,
        bytes: b"LVM2 001",
    },
    Magic {
        place: 536,
        bytes: b"LVM2 001",
    },
    Magic {
        place: 1048,
        bytes: b"LVM2 001",
    },
    Magic {
        place: 1560,
        bytes: b"LVM2 001",
    },
];

const BCACHE: [Magic; 1] = [Magic {
    place: 4120,
    bytes: b"\xc6\x85\x73\xf6\x4e\x1a\x45\xca\x82\x65\xf5\x7f\x48\xba\x6d\x81",
}];

const GPT: [Magic; 2] = [
    Magic {
        place: 512,
        bytes: b"EFI PART",
    },
    Magic {
        place: 4096,
        bytes: b"EFI PART",
    },
];

// At the end of the first page, which has 4 to 64 KiB.
const SWAP: [Magic; 10] = [
    Magic {
        place: 4086,
        bytes: b"SWAPSPACE2",
    },
    Magic {
        place: 4086,
        bytes: b"SWAP-SPACE",
    },
    Magic {
        place: 8182,
        bytes: b"SWAPSPACE2",
    },
    Magic {
        place: 8182,
        bytes: b"SWAP-SPACE",
    },
    Magic {
        place: 16374,
        bytes: b"SWAPSPACE2",
    },
    Magic {
        place: 16374,
        bytes: b"SWAP-SPACE",
    },
    Magic {
        place: 32758,
        bytes: b"SWAPSPACE2",
    },
    Magic {
        place: 32758,
        bytes: b"SWAP-SPACE",
    },
    Magic {
        place: 65526,
        bytes: b"SWAPSPACE2",
    },
    Magic {
        place: 65526,
        bytes: b"SWAP-SPACE",
    },
];

const EXT: [Magic; 1] = [Magic {
    place: 1080,
    bytes: b"\x53\xef",
}];

const XFS: [Magic; 1] = [Magic {
    place: 0,
    bytes: b"XFSB",
}];

const BTRFS: [Magic; 1] = [Magic {
    place: 65600,
    bytes: b"_BHRfS_M",
}];

const F2FS: [Magic; 1] = [Magic {
    place: 1024,
    bytes: b"\x10\x20\xf5\xf2",
}];

const JFS: [Magic; 1] = [Magic {
    place: 32768,
    bytes: b"JFS1",
}];

const REISERFS: [Magic; 5] = [
    Magic {
        place: 65588,
        bytes: b"ReIsErFs",
    },
    Magic {
        place: 65588,
        bytes: b"ReIsEr2Fs",
    },
    Magic {
        place: 65588,
        bytes: b"ReIsEr3Fs",
    },
    Magic {
        place: 8244,
        bytes: b"ReIsErFs",
    },
    Magic {
        place: 8212,
        bytes: b"ReIsErFs",
    },
];

const NTFS: [Magic; 1] = [Magic {
    place: 3,
    bytes: b"NTFS    ",
}];

const EXFAT: [Magic; 1] = [Magic {
    place: 3,
    bytes: b"EXFAT   ",
}];

const FAT: [Magic; 6] = [
    Magic {
        place: 54,
        bytes: b"FAT12   ",
    },
    Magic {
        place: 54,
        bytes: b"FAT16   ",
    },
    Magic {
        place: 54,
        bytes: b"FAT     ",
    },
    Magic {
        place: 54,
        bytes: b"MSDOS",
    },
    Magic {
        place: 82,
        bytes: b"FAT32   ",
    },
    Magic {
        place: 82,
        bytes: b"MSWIN",
    },
];

const SQUASHFS: [Magic; 2] = [
    Magic {
        place: 0,
        bytes: b"hsqs",
    },
    Magic {
        place: 0,
        bytes: b"sqsh",
    },
];

const ISO9660: [Magic; 1] = [Magic {
    place: 32769,
    bytes: b"CD001",
}];

/// The magic numbers of a signature that stand at fixed places.
pub(crate) fn magics(signature: Signature) -> &'static [Magic]
    ensures table { map sign_of result.now ≡ magics signature }
    ensures short { list_all (λ m. is_in_one_sector (sign_of m)) result.now ≡ true }
{
    match signature {
        Signature::Md11 => &MD11,
        Signature::Md12 => &MD12,
        Signature::Luks => &LUKS,
        Signature::Lvm2 => &LVM2,
        Signature::Bcache => &BCACHE,
        Signature::Gpt => &GPT,
        Signature::Swap => &SWAP,
        Signature::Ext => &EXT,
        Signature::Xfs => &XFS,
        Signature::Btrfs => &BTRFS,
        Signature::F2fs => &F2FS,
        Signature::Jfs => &JFS,
        Signature::Reiserfs => &REISERFS,
        Signature::Ntfs => &NTFS,
        Signature::Exfat => &EXFAT,
        Signature::Fat => &FAT,
        Signature::Squashfs => &SQUASHFS,
        Signature::Iso9660 => &ISO9660,
        Signature::Md090 | Signature::Md10 | Signature::Mbr => &[],
    }
}
