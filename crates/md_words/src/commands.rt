// The commands and their options, with what help says of them.
use crate::help;

/// What the value of an option has to be.
pub(crate) enum Kind {
    Text,
    U32,
    U64,
    /// Any text, and the option may be given more than once.
    Texts,
    /// It has no value.
    Flag,
}

/// An option of a command.
pub(crate) struct OptionWords<'a> {
    pub(crate) name: &'a str,
    /// What help calls its value.
    pub(crate) value: &'a str,
    pub(crate) help: &'a str,
    pub(crate) kind: Kind,
    pub(crate) required: bool,
    pub(crate) default: Option<&'a str>,
}

/// A command. After its options it takes images; their number is no matter of the parser's: the command
/// itself refuses it by name.
pub(crate) struct CommandWords<'a> {
    pub(crate) name: &'a str,
    /// Words of mdadm that stand for its name.
    pub(crate) aliases: &'a [&'a str],
    pub(crate) about: &'a str,
    pub(crate) after_help: &'a str,
    pub(crate) options: &'a [OptionWords<'a>],
}

const READONLY: OptionWords = OptionWords {
    name: "readonly",
    value: "",
    help: "Changes no image: what would be stored is kept in memory",
    kind: Kind::Flag,
    required: false,
    default: None,
};

const ONLY_READ: OptionWords = OptionWords {
    name: "readonly",
    value: "",
    help: "Changes no image, and refuses writes",
    kind: Kind::Flag,
    required: false,
    default: None,
};

const ALL: OptionWords = OptionWords {
    name: "all",
    value: "",
    help: "Shows what stands there, though it may be refused, with each fault in it",
    kind: Kind::Flag,
    required: false,
    default: None,
};

const LIST: OptionWords = OptionWords {
    name: "list",
    value: "",
    help: "Shows where members differ too, and which: a line for each such chunk",
    kind: Kind::Flag,
    required: false,
    default: None,
};

const EXIT_CODE: OptionWords = OptionWords {
    name: "exit-code",
    value: "",
    help: "Ends with status 3 where members differ",
    kind: Kind::Flag,
    required: false,
    default: None,
};

const QUIET: OptionWords = OptionWords {
    name: "quiet",
    value: "",
    help: "Shows the last line of the report alone, without the plan",
    kind: Kind::Flag,
    required: false,
    default: None,
};

const JSON: OptionWords = OptionWords {
    name: "json",
    value: "",
    help: "Shows the report, or why the command is refused, as a JSON object, in one line",
    kind: Kind::Flag,
    required: false,
    default: None,
};

const MEMBER: OptionWords = OptionWords {
    name: "member",
    value: "N",
    help: "The member: its place among the images, from 0, or its image as it is listed",
    kind: Kind::Text,
    required: true,
    default: None,
};

const DEVICE: OptionWords = OptionWords {
    name: "device",
    value: "NEW",
    help: "The image that joins the array: a file or a block device, none of those listed",
    kind: Kind::Text,
    required: true,
    default: None,
};

const FULL: OptionWords = OptionWords {
    name: "full",
    value: "",
    help: "Rebuilds all of it, whatever its bitmap says",
    kind: Kind::Flag,
    required: false,
    default: None,
};

const SALVAGE: OptionWords = OptionWords {
    name: "salvage",
    value: "",
    help: "Lists the bad sectors alone that no member gives, and not their chunks",
    kind: Kind::Flag,
    required: false,
    default: None,
};

const SECTOR: OptionWords = OptionWords {
    name: "sector",
    value: "S",
    help: "The first sector of the array, from 0; a sector has 512 bytes. As 64M: that far from its start",
    kind: Kind::Text,
    required: true,
    default: None,
};

const COUNT: OptionWords = OptionWords {
    name: "count",
    value: "N",
    help: "The number of sectors, or a size as 64M: by default all up to the end of the array",
    kind: Kind::Text,
    required: false,
    default: None,
};

const INPUT_COUNT: OptionWords = OptionWords {
    name: "count",
    value: "N",
    help: "The number of sectors that the input has, or a size as 64M: a pipe is then written in pieces, as a file is",
    kind: Kind::Text,
    required: false,
    default: None,
};

const FILL: OptionWords = OptionWords {
    name: "fill",
    value: "",
    help: "Goes on past sectors that are not given, and writes zeros in their place",
    kind: Kind::Flag,
    required: false,
    default: None,
};

const FILL_SERVED: OptionWords = OptionWords {
    name: "fill",
    value: "",
    help: "With --readonly: gives zeros in the place of sectors that are not given, which else are an input/output error",
    kind: Kind::Flag,
    required: false,
    default: None,
};

const MAP_OUT: OptionWords = OptionWords {
    name: "map-out",
    value: "FILE",
    help: "With --fill or --resume: makes a file, ddrescue's map of the array as far as it is read",
    kind: Kind::Text,
    required: false,
    default: None,
};

const OUTPUT: OptionWords = OptionWords {
    name: "output",
    value: "FILE",
    help: "Makes a file of the sectors, a new one without --resume, and writes nothing to standard output; blocks of zeros are holes in it",
    kind: Kind::Text,
    required: false,
    default: None,
};

const RESUME: OptionWords = OptionWords {
    name: "resume",
    value: "",
    help: "With --readonly, --output and --map-out: goes on with the files of a read that was interrupted, or begins one",
    kind: Kind::Flag,
    required: false,
    default: None,
};

const LEVEL: OptionWords = OptionWords {
    name: "level",
    value: "LEVEL",
    help: "The RAID level: 1, raid1 or mirror",
    kind: Kind::Text,
    required: true,
    default: None,
};

const RAID_DEVICES: OptionWords = OptionWords {
    name: "raid-devices",
    value: "N",
    help: "The number of members",
    kind: Kind::U32,
    required: true,
    default: None,
};

const UUID: OptionWords = OptionWords {
    name: "uuid",
    value: "UUID",
    help: "The UUID of the array, with hyphens or as mdadm writes it: by default a random one",
    kind: Kind::Text,
    required: false,
    default: None,
};

const NAME: OptionWords = OptionWords {
    name: "name",
    value: "NAME",
    help: "The name of the array, of at most 32 bytes",
    kind: Kind::Text,
    required: false,
    default: Some("md"),
};

const BITMAP_CHUNK: OptionWords = OptionWords {
    name: "bitmap-chunk",
    value: "SIZE",
    help: "The size of a chunk of the bitmap, in KiB or with the suffix K, M, G or T",
    kind: Kind::Text,
    required: false,
    default: Some("65536"),
};

const BITMAP: OptionWords = OptionWords {
    name: "bitmap",
    value: "internal",
    help: "The bitmap that the members get: one on each of them",
    kind: Kind::Text,
    required: true,
    default: None,
};

const BITMAP_IN_MEMORY: OptionWords = OptionWords {
    name: "bitmap",
    value: "internal",
    help: "With --readonly: reads an array without a bitmap as if `grow` had given it one, in memory alone",
    kind: Kind::Text,
    required: false,
    default: None,
};

const DATA_OF: OptionWords = OptionWords {
    name: "data-of",
    value: "IMAGE=NUMBER",
    help: "With --readonly: the image is the device of this number in the array, though its superblock or bitmap can't be read; with --fill it is read where no other gives a sector",
    kind: Kind::Text,
    required: false,
    default: None,
};

const SIZE: OptionWords = OptionWords {
    name: "size",
    value: "SIZE",
    help: "The size of the array, in KiB or with the suffix K, M, G or T: by default all that its members have",
    kind: Kind::Text,
    required: false,
    default: None,
};

const TIME: OptionWords = OptionWords {
    name: "time",
    value: "SECONDS",
    help: "The time that the array is created at, since 1970",
    kind: Kind::U64,
    required: false,
    default: Some("0"),
};

const WRITE_MOSTLY: OptionWords = OptionWords {
    name: "write-mostly",
    value: "ROLE",
    help: "The role of a member that is read only where no other can serve",
    kind: Kind::U32,
    required: false,
    default: None,
};

const ASSUME_CLEAN: OptionWords = OptionWords {
    name: "assume-clean",
    value: "",
    help: "Takes the members for equal, so that nothing is to be copied",
    kind: Kind::Flag,
    required: false,
    default: None,
};

const RUN: OptionWords = OptionWords {
    name: "run",
    value: "",
    help: "Asks nothing, and goes on",
    kind: Kind::Flag,
    required: false,
    default: None,
};

const MAP: OptionWords = OptionWords {
    name: "map",
    value: "IMAGE=FILE",
    help: "The image is a copy of a disk, and FILE ddrescue's map of it: what it lacks is not read; of each image one",
    kind: Kind::Texts,
    required: false,
    default: None,
};

const MAP_SERVED: OptionWords = OptionWords {
    name: "map",
    value: "IMAGE=FILE",
    help: "With --readonly: the image is a copy of a disk, and FILE ddrescue's map of it: what it lacks is not read; of each image one",
    kind: Kind::Texts,
    required: false,
    default: None,
};

/// The commands on one image, and the one that tells of which arrays images are members.
pub(crate) const EXAMINE_COMMANDS: [CommandWords; 4] = [
    CommandWords {
        name: "examine",
        aliases: &["--examine", "-E"],
        about: "Shows the superblock of a member's image",
        after_help: help::EXAMINE,
        options: &[ALL, JSON, READONLY],
    },
    CommandWords {
        name: "examine-bitmap",
        aliases: &[],
        about: "Shows the write-intent bitmap of a member's image",
        after_help: help::EXAMINE,
        options: &[ALL, JSON, READONLY],
    },
    CommandWords {
        name: "examine-badblocks",
        aliases: &[],
        about: "Shows the bad block log of a member's image",
        after_help: help::EXAMINE,
        options: &[ALL, JSON, READONLY],
    },
    CommandWords {
        name: "scan",
        aliases: &[],
        about: "Shows of which arrays the images are members, for mdadm.conf; none given: all block devices",
        after_help: help::SCAN,
        options: &[JSON, READONLY],
    },
];

/// The commands that make an array or show it.
pub(crate) const ARRAY_COMMANDS: [CommandWords; 5] = [
    CommandWords {
        name: "create",
        aliases: &[],
        about: "Makes an array of the images; what they held is lost",
        after_help: help::CREATE,
        options: &[
            LEVEL,
            RAID_DEVICES,
            UUID,
            NAME,
            BITMAP_CHUNK,
            SIZE,
            TIME,
            WRITE_MOSTLY,
            ASSUME_CLEAN,
            JSON,
            RUN,
        ],
    },
    CommandWords {
        name: "grow",
        aliases: &[],
        about: "Gives the members of an array a write-intent bitmap that it lacks",
        after_help: help::GROW,
        options: &[BITMAP, BITMAP_CHUNK, RUN],
    },
    CommandWords {
        name: "assemble",
        aliases: &[],
        about: "Shows in a line what array the images make; may store marks",
        after_help: help::ARRAY,
        options: &[JSON, READONLY, MAP, BITMAP_IN_MEMORY, DATA_OF],
    },
    CommandWords {
        name: "detail",
        aliases: &["--detail", "-D"],
        about: "Shows the array that the images make; may store marks",
        after_help: help::DETAIL,
        options: &[JSON, READONLY, MAP, BITMAP_IN_MEMORY, DATA_OF],
    },
    CommandWords {
        name: "plan",
        aliases: &[],
        about: "Shows the plan of a member's rebuild, in the fewest rounds; may store marks",
        after_help: help::PLAN,
        options: &[MEMBER, JSON, READONLY, MAP, BITMAP_IN_MEMORY, DATA_OF],
    },
];

/// The commands on an array's data.
pub(crate) const DATA_COMMANDS: [CommandWords; 6] = [
    CommandWords {
        name: "read",
        aliases: &[],
        about: "Writes sectors of the array to standard output; may change images",
        after_help: help::READ,
        options: &[
            SECTOR,
            COUNT,
            FILL,
            MAP_OUT,
            OUTPUT,
            RESUME,
            READONLY,
            MAP,
            BITMAP_IN_MEMORY,
            DATA_OF,
        ],
    },
    CommandWords {
        name: "serve",
        aliases: &[],
        about: "Serves the array as a network block device, and stops it",
        after_help: help::SERVE,
        options: &[
            FILL_SERVED,
            RUN,
            ONLY_READ,
            MAP_SERVED,
            BITMAP_IN_MEMORY,
            DATA_OF,
        ],
    },
    CommandWords {
        name: "write",
        aliases: &[],
        about: "Writes standard input to the array, and stops it",
        after_help: help::WRITE,
        options: &[SECTOR, INPUT_COUNT, RUN],
    },
    CommandWords {
        name: "check",
        aliases: &[],
        about: "Counts the chunks in which members in sync differ; may store marks",
        after_help: help::CHECK,
        options: &[
            LIST,
            EXIT_CODE,
            JSON,
            READONLY,
            MAP,
            BITMAP_IN_MEMORY,
            DATA_OF,
        ],
    },
    CommandWords {
        name: "resync",
        aliases: &[],
        about: "Makes the members in sync agree where they may differ, and stops the array",
        after_help: help::RESYNC,
        options: &[RUN, MAP],
    },
    CommandWords {
        name: "stop",
        aliases: &[],
        about: "Stops the array: it is clean then, unless its members may differ",
        after_help: help::STOP,
        options: &[JSON, RUN],
    },
];

/// The commands by which the members of an array change.
pub(crate) const MEMBER_COMMANDS: [CommandWords; 3] = [
    CommandWords {
        name: "fail",
        aliases: &[],
        about: "Makes a member faulty, and stops the array",
        after_help: help::FAIL,
        options: &[MEMBER, RUN],
    },
    CommandWords {
        name: "remove",
        aliases: &[],
        about: "Takes a member that is not in use out of the array, and stops it",
        after_help: help::REMOVE,
        options: &[MEMBER, RUN],
    },
    CommandWords {
        name: "add",
        aliases: &[],
        about: "Adds an image to the array as a spare, and stops it; what the image held is lost",
        after_help: help::ADD,
        options: &[DEVICE, JSON, RUN],
    },
];

/// The commands by which a member gets the data that it lacks.
pub(crate) const REBUILD_COMMANDS: [CommandWords; 2] = [
    CommandWords {
        name: "re-add",
        aliases: &[],
        about: "Takes an image back that left the array, rebuilds what it lacks, and stops the array",
        after_help: help::RE_ADD,
        options: &[DEVICE, FULL, JSON, RUN],
    },
    CommandWords {
        name: "rebuild",
        aliases: &[],
        about: "Rebuilds a member from all others at once by its plan, and stops the array",
        after_help: help::REBUILD,
        options: &[MEMBER, SALVAGE, QUIET, JSON, RUN, MAP],
    },
];
