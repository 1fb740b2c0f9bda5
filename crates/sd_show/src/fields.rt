//! Fields, and the forms of their values.

ghost use Rattle.std.specs.Prelude.{◌≡◌};
ghost use Rattle.sd_show.specs.Fields.{field_name, field_form};
ghost use Rattle.sd_show.specs.Packing.{form_of};

use crate::form::Form;

const NAME: Form = Form::Quoted { most: 255 };

const PATH: Form = Form::Quoted { most: 1024 };

const COOKIE: Form = Form::Fixed { len: 4 };

/// A word, and those behind it.
const FOUR: Form = Form::Pair(
    &Form::Number,
    &Form::Pair(&Form::Number, &Form::Pair(&Form::Number, &Form::Number)),
);

const EIGHT: Form = Form::Pair(
    &Form::Number,
    &Form::Pair(
        &Form::Number,
        &Form::Pair(
            &Form::Number,
            &Form::Pair(
                &Form::Number,
                &Form::Pair(
                    &Form::Number,
                    &Form::Pair(&Form::Number, &Form::Pair(&Form::Number, &Form::Number)),
                ),
            ),
        ),
    ),
);

const SEVENTEEN: Form = Form::Pair(
    &Form::Number,
    &Form::Pair(
        &Form::Number,
        &Form::Pair(
            &Form::Number,
            &Form::Pair(
                &Form::Number,
                &Form::Pair(
                    &Form::Number,
                    &Form::Pair(
                        &Form::Number,
                        &Form::Pair(
                            &Form::Number,
                            &Form::Pair(
                                &Form::Number,
                                &Form::Pair(
                                    &Form::Number,
                                    &Form::Pair(
                                        &Form::Number,
                                        &Form::Pair(
                                            &Form::Number,
                                            &Form::Pair(
                                                &Form::Number,
                                                &Form::Pair(
                                                    &Form::Number,
                                                    &Form::Pair(
                                                        &Form::Number,
                                                        &Form::Pair(
                                                            &Form::Number,
                                                            &Form::Pair(
                                                                &Form::Number,
                                                                &Form::Number,
                                                            ),
                                                        ),
                                                    ),
                                                ),
                                            ),
                                        ),
                                    ),
                                ),
                            ),
                        ),
                    ),
                ),
            ),
        ),
    ),
);

/// The attributes of a file, and those that are to be set.
const ATTRIBUTES: Form = Form::Row(&SEVENTEEN);

const SETTINGS: Form = Form::Row(&EIGHT);

/// A mapping of the portmapper.
const MAPPING: Form = Form::Row(&FOUR);

/// A mount: host and path.
const MOUNT: Form = Form::Row(&Form::Pair(&NAME, &PATH));

/// An entry of a directory: number, name and cookie.
const ENTRY: Form = Form::Row(&Form::Pair(&Form::Number, &Form::Pair(&NAME, &COOKIE)));

/// An export: path and groups.
const EXPORT: Form = Form::Row(&Form::Pair(&PATH, &Form::List(&NAME)));

/// Lists of them.
const MAPPINGS: Form = Form::List(&MAPPING);

const MOUNTS: Form = Form::List(&MOUNT);

const ENTRIES: Form = Form::List(&ENTRY);

const EXPORTS: Form = Form::List(&EXPORT);

/// A field of arguments or results. Its value has one form wherever it stands.
#[derive(Clone, Copy, Debug, PartialEq, Eq)]
pub enum Field {
    Address,
    Args,
    Attr,
    Bavail,
    Begin,
    Bfree,
    Blocks,
    Bsize,
    Bytes,
    Client,
    Cookie,
    Count,
    Dir,
    Domain,
    Entries,
    Eof,
    Exports,
    File,
    From,
    Key,
    Maps,
    Mounts,
    Named,
    Offset,
    Ok,
    Path,
    Port,
    /// A port that is answered, which is one of UDP or TCP.
    PortAnswer,
    Proc,
    Prog,
    Prot,
    Results,
    Router,
    Server,
    Set,
    Status,
    ToDir,
    ToName,
    Total,
    Tsize,
    Vers,
}

impl Field {
    /// What stands before its `=`.
    pub fn name(self) -> &'static str
        ensures { result.now ≡ field_name self }
    {
        match self {
            Field::Address => "address",
            Field::Args => "args",
            Field::Attr => "attr",
            Field::Bavail => "bavail",
            Field::Begin => "begin",
            Field::Bfree => "bfree",
            Field::Blocks => "blocks",
            Field::Bsize => "bsize",
            Field::Bytes => "bytes",
            Field::Client => "client",
            Field::Cookie => "cookie",
            Field::Count => "count",
            Field::Dir => "dir",
            Field::Domain => "domain",
            Field::Entries => "entries",
            Field::Eof => "eof",
            Field::Exports => "exports",
            Field::File => "file",
            Field::From => "from",
            Field::Key => "key",
            Field::Maps => "maps",
            Field::Mounts => "mounts",
            Field::Named => "name",
            Field::Offset => "offset",
            Field::Ok => "ok",
            Field::Path => "path",
            Field::Port => "port",
            Field::PortAnswer => "port",
            Field::Proc => "proc",
            Field::Prog => "prog",
            Field::Prot => "prot",
            Field::Results => "results",
            Field::Router => "router",
            Field::Server => "server",
            Field::Set => "set",
            Field::Status => "status",
            Field::ToDir => "to_dir",
            Field::ToName => "to_name",
            Field::Total => "total",
            Field::Tsize => "tsize",
            Field::Vers => "vers",
        }
    }

    /// The form of what stands behind its `=`.
    pub fn form(self) -> Form
        ensures { form_of result ≡ field_form self }
    {
        match self {
            Field::Address | Field::Router => Form::Address,
            Field::Args | Field::Results => Form::Run {
                most: 4_294_967_295,
            },
            Field::Attr => ATTRIBUTES,
            Field::Bavail
            | Field::Begin
            | Field::Bfree
            | Field::Blocks
            | Field::Bsize
            | Field::Count
            | Field::Offset
            | Field::Port
            | Field::Proc
            | Field::Prog
            | Field::Prot
            | Field::Status
            | Field::Total
            | Field::Tsize
            | Field::Vers => Form::Number,
            Field::Bytes => Form::Run { most: 8192 },
            Field::Client | Field::Domain | Field::Named | Field::Server | Field::ToName => NAME,
            Field::Cookie => COOKIE,
            Field::Dir | Field::File | Field::From | Field::ToDir => Form::Fixed { len: 32 },
            Field::Entries => ENTRIES,
            Field::Eof | Field::Ok => Form::Flag,
            Field::Exports => EXPORTS,
            Field::Key => Form::Quoted { most: 32 },
            Field::Maps => MAPPINGS,
            Field::Mounts => MOUNTS,
            Field::Path => PATH,
            Field::PortAnswer => Form::Port,
            Field::Set => SETTINGS,
        }
    }
}
