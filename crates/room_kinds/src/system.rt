//! The kinds of system messages.
ghost use Rattle.std.specs.Prelude.{◌≡◌, Some, None, IsNone, IfSome, ◌↔◌, ◌≤◌};
ghost use Rattle.room_kinds.specs.Kinds.{number_of};
ghost use Rattle.room_kinds.specs.Names.{name_of, kind_named, kind_at};

/// The kinds of the messages of priority 0: the frame service's and the layer service's.
#[derive(Clone, Copy, Debug, PartialEq, Eq)]
pub enum SysKind {
    Create,
    CreateDone,
    CreateRefused,
    Destroy,
    DestroyDone,
    Import,
    ImportDone,
    ImportRefused,
    ImportEnded,
    Deport,
    DeportDone,
    Announce,
    Register,
    Withdraw,
    Bound,
    Ended,
    NameReply,
    PartMake,
    PartEnd,
}

impl SysKind {
    /// The kinds, in order of number.
    const ALL: [SysKind; 19] = [
        SysKind::Create,
        SysKind::CreateDone,
        SysKind::CreateRefused,
        SysKind::Destroy,
        SysKind::DestroyDone,
        SysKind::Import,
        SysKind::ImportDone,
        SysKind::ImportRefused,
        SysKind::ImportEnded,
        SysKind::Deport,
        SysKind::DeportDone,
        SysKind::Announce,
        SysKind::Register,
        SysKind::Withdraw,
        SysKind::Bound,
        SysKind::Ended,
        SysKind::NameReply,
        SysKind::PartMake,
        SysKind::PartEnd,
    ];

    /// The kind's number, from 0 in the order above.
    pub fn number(self) -> u16
        ensures { result ≡ number_of self }
    {
        u16::from(self as u8)
    }

    /// The kind of a number; none from 19 on.
    #[tactic(auto, using(crate::proofs::KindNames::number_back, crate::proofs::KindNames::none_from), unfolding(crate::specs::Names::kind_at))]
    pub fn from_number(n: u16) -> Option<SysKind>
        ensures back { (kind : SysKind) → number_of kind ≡ n → result ≡ Some kind }
        ensures none { IsNone result ↔ (19 ≤ n) }
        ensures kind { result ≡ kind_at n }
    {
        Some(match n {
            0 => SysKind::Create,
            1 => SysKind::CreateDone,
            2 => SysKind::CreateRefused,
            3 => SysKind::Destroy,
            4 => SysKind::DestroyDone,
            5 => SysKind::Import,
            6 => SysKind::ImportDone,
            7 => SysKind::ImportRefused,
            8 => SysKind::ImportEnded,
            9 => SysKind::Deport,
            10 => SysKind::DeportDone,
            11 => SysKind::Announce,
            12 => SysKind::Register,
            13 => SysKind::Withdraw,
            14 => SysKind::Bound,
            15 => SysKind::Ended,
            16 => SysKind::NameReply,
            17 => SysKind::PartMake,
            18 => SysKind::PartEnd,
            _ => return None,
        })
    }

    /// The kind's name, as journals have it.
    pub fn name(self) -> &'static str
        ensures { result.now ≡ name_of self }
    {
        match self {
            SysKind::Create => "Create",
            SysKind::CreateDone => "CreateDone",
            SysKind::CreateRefused => "CreateRefused",
            SysKind::Destroy => "Destroy",
            SysKind::DestroyDone => "DestroyDone",
            SysKind::Import => "Import",
            SysKind::ImportDone => "ImportDone",
            SysKind::ImportRefused => "ImportRefused",
            SysKind::ImportEnded => "ImportEnded",
            SysKind::Deport => "Deport",
            SysKind::DeportDone => "DeportDone",
            SysKind::Announce => "Announce",
            SysKind::Register => "Register",
            SysKind::Withdraw => "Withdraw",
            SysKind::Bound => "Bound",
            SysKind::Ended => "Ended",
            SysKind::NameReply => "NameReply",
            SysKind::PartMake => "PartMake",
            SysKind::PartEnd => "PartEnd",
        }
    }

    /// The kind with this name.
    #[tactic(auto, using(crate::proofs::KindNames::name_back, crate::proofs::KindNames::named_so), unfolding(crate::specs::Names::kind_named))]
    pub fn from_name(name: &[u8]) -> Option<SysKind>
        ensures kind { result ≡ kind_named name.now }
        ensures back { (kind : SysKind) → name_of kind ≡ name.now → result ≡ Some kind }
        ensures named { IfSome result (λ kind. name_of kind ≡ name.now) }
    {
        SysKind::ALL
            .iter()
            .find(|kind| kind.name().as_bytes() == name)
            .copied()
    }
}
