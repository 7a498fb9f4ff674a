// What a device may hold.
ghost use Rattle.std.specs.Prelude.{◌≡◌};
ghost use Rattle.md_notices.specs.Signatures.Texts.{text_of};

/// What the bytes of a device say that it holds. `specs/Signatures/Table.antt` says by which bytes.
#[derive(Clone, Copy)]
pub enum Signature {
    /// An MD superblock of version 0.90, near the end of the device.
    Md090,
    /// One of version 1.0, at the end of the device.
    Md10,
    /// One of version 1.1, at the start of the device.
    Md11,
    /// One of version 1.2, at byte 4096.
    Md12,
    /// A LUKS header.
    Luks,
    /// A label of LVM2.
    Lvm2,
    Bcache,
    /// A GUID partition table.
    Gpt,
    /// A partition table of the PC.
    Mbr,
    Swap,
    /// Ext2, ext3 or ext4.
    Ext,
    Xfs,
    Btrfs,
    F2fs,
    Jfs,
    Reiserfs,
    Ntfs,
    Exfat,
    Fat,
    Squashfs,
    Iso9660,
}

/// All of them, in the order in which they are told.
pub const SIGNATURES: [Signature; 21] = [
    Signature::Md090,
    Signature::Md10,
    Signature::Md11,
    Signature::Md12,
    Signature::Luks,
    Signature::Lvm2,
    Signature::Bcache,
    Signature::Gpt,
    Signature::Mbr,
    Signature::Swap,
    Signature::Ext,
    Signature::Xfs,
    Signature::Btrfs,
    Signature::F2fs,
    Signature::Jfs,
    Signature::Reiserfs,
    Signature::Ntfs,
    Signature::Exfat,
    Signature::Fat,
    Signature::Squashfs,
    Signature::Iso9660,
];

impl Signature {
    /// What the device holds, as a noun with its article.
    pub fn text(self) -> &'static str
        ensures { result.now ≡ text_of self }
    {
        match self {
            Signature::Md090 => "an md superblock of version 0.90",
            Signature::Md10 => "an md superblock of version 1.0",
            Signature::Md11 => "an md superblock of version 1.1",
            Signature::Md12 => "an md superblock of version 1.2",
            Signature::Luks => "a LUKS volume",
            Signature::Lvm2 => "an LVM2 physical volume",
            Signature::Bcache => "a bcache device",
            Signature::Gpt => "a GUID partition table",
            Signature::Mbr => "a DOS partition table",
            Signature::Swap => "swap space",
            Signature::Ext => "an ext2, ext3 or ext4 file system",
            Signature::Xfs => "an XFS file system",
            Signature::Btrfs => "a Btrfs file system",
            Signature::F2fs => "an F2FS file system",
            Signature::Jfs => "a JFS file system",
            Signature::Reiserfs => "a ReiserFS file system",
            Signature::Ntfs => "an NTFS file system",
            Signature::Exfat => "an exFAT file system",
            Signature::Fat => "a FAT file system",
            Signature::Squashfs => "a SquashFS file system",
            Signature::Iso9660 => "an ISO 9660 file system",
        }
    }
}
