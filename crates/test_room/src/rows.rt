//! Worked runs on one controller. The journals of each are what it prints.
use crate::case::Case;

const EXCHANGE_MODEL: &str = "RoomModel M {
LogicalSystem L { SubSystemRef s: S }
SubSystemClass S { ActorRef top: T }
ProtocolClass G { incoming { Message kick() } outgoing { } }
ProtocolClass PP { incoming { Message ping(int32) } outgoing { Message pong(int32) } }
ActorClass A { Interface { conjugated Port p: PP } Structure { external Port p Port go: G }
Behavior { StateMachine { Transition i: initial -> Wait State Wait
Transition k: Wait -> Wait { triggers { <kick: go> } action { \"p.ping(1);\" } }
Transition q: Wait -> Wait { triggers { <pong: p> } } } } }
ActorClass B { Interface { Port p: PP } Structure { external Port p }
Behavior { StateMachine { Transition i: initial -> Up State Up
Transition r: Up -> Up { triggers { <ping: p> } action { \"p.pong(data + 1);\" } } } } }
ActorClass T { Structure { ActorRef a: A ActorRef b: B Binding a.p and b.p } }
}";

/// What the exchange prints, in 16 lines.
pub(crate) const EXCHANGE_JOURNAL: &str = "room-journal 2
controller 0 default
start top#1 -
start top/a#1 Wait
start top/b#1 Up
2 fetch env@1
3 turn env@1 handled top/a#1 Wait
4 post 0 3 top/a#1.p[0] top/b#1.p[0] ping 1
5 fetch 0@4
6 turn 0@4 handled top/b#1 Up
7 post 0 3 top/b#1.p[0] top/a#1.p[0] pong 2
8 fetch 0@7
9 turn 0@7 handled top/a#1 Wait
environment
1 post 0 3 - top/a#0.go[0] kick
done
";

/// An exchange of two messages.
pub(crate) const EXCHANGE: Case<'static> = Case {
    words: &["run", "model.room", "inject.txt"],
    model: EXCHANGE_MODEL,
    injections: "top/a.go kick\n",
    journals: EXCHANGE_JOURNAL,
    failing_read: None,
    failing_write: None,
    failing_note: None,
    room: 10_000,
};

const IMPORT_MODEL: &str = "RoomModel M {
LogicalSystem L { SubSystemRef s: S }
SubSystemClass S { ActorRef top: T }
ProtocolClass G { incoming { Message make(int32) Message swap() Message late() } outgoing { Message t() } }
ActorClass O { Interface { conjugated Port q: G } Structure { external Port q }
Behavior { StateMachine { Transition i: initial -> N State N Transition t: N -> N { triggers { <t: q> } } } } }
ActorClass T { Structure { Port go: G Port p: G Port r: G ActorRef h: O imported ActorRef i[2]: O Binding p and i.q Binding r and i.q }
Behavior { StateMachine { Transition i: initial -> A State A
Transition m: A -> A { triggers { <make: go> } action { \"import i[0] = data; import i[1] = data;\" } }
Transition l: A -> A { triggers { <late: go> } action { \"deport i[0];\" } }
Transition f: A -> A { triggers { <imported: frame | deported: frame | refused: frame> } } } } }
}";

const IMPORT_JOURNAL: &str = "room-journal 2
controller 0 default
start top#1 A
start top/h#1 N
2 fetch env@1
3 turn env@1 handled top#1 A
4 post 0 0 top/i:0#1.frame[0] top/h#1.frame[0] Import
5 post 0 0 top/i:1#1.frame[0] top/h#1.frame[0] Import
6 fetch 0@4 0@5
8 turn 0@4 duty
9 post 0 0 top/h#1.frame[0] top/i:0#1.frame[0] ImportDone
10 fetch 0@9
11 turn 0@5 duty
12 post 0 0 top/h#1.frame[0] top/i:1#1.frame[0] ImportRefused 5
13 fetch 0@12
14 turn 0@9 duty
15 post 0 3 top/h#1.frame[0] top#1.frame[0] imported 1 0 1048577
16 fetch 0@15
17 turn 0@12 duty
18 post 0 3 top/h#1.frame[0] top#1.frame[0] refused 1 1 5
19 fetch 0@18
20 turn 0@15 handled top#1 A
21 turn 0@18 handled top#1 A
environment
1 post 0 3 - top#0.go[0] make 1048577
done
";

/// An actor that is lent to one place, and refused to another one.
pub(crate) const IMPORT: Case<'static> = Case {
    words: &["run", "model.room", "inject.txt"],
    model: IMPORT_MODEL,
    injections: "top.go make 1048577\n",
    journals: IMPORT_JOURNAL,
    failing_read: None,
    failing_write: None,
    failing_note: None,
    room: 10_000,
};

const NAMES_MODEL: &str = "RoomModel M {
LogicalSystem L { SubSystemRef s: S }
SubSystemClass S { ActorRef top: T }
ProtocolClass G { incoming { Message kick() } outgoing { } }
ActorClass C { Structure { SAP s: G } Behavior { StateMachine { Transition i: initial -> N { action { \"register s as look;\" } } State N } } }
ActorClass D { Interface { SPP v: G } Behavior { StateMachine { Transition i: initial -> N { action { \"register v as look;\" } } State N } } }
ActorClass T { Structure { ActorRef c: C ActorRef d: D ActorRef e: D } }
}";

const NAMES_JOURNAL: &str = "room-journal 2
controller 0 default
start top#1 -
start top/c#1 N
start top/d#1 N
start top/e#1 N
1 post 0 0 top/c#1.s[0] top/c#1.s[0] Register 0
2 post 0 0 top/d#1.v[0] top/d#1.v[0] Register 0
3 post 0 0 top/e#1.v[0] top/e#1.v[0] Register 0
4 fetch 0@1 0@2 0@3
7 turn 0@1 duty
8 post 0 0 top/c#1.s[0] top/c#1.s[0] NameReply 0
9 fetch 0@8
10 turn 0@2 duty
11 post 0 0 top/d#1.v[0] top/d#1.v[0] NameReply 0
12 post 0 0 top/c#1.s[0] top/d#1.v[0] Bound
13 post 0 0 top/d#1.v[0] top/c#1.s[0] Bound
14 fetch 0@11 0@12 0@13
17 turn 0@3 duty
18 post 0 0 top/e#1.v[0] top/e#1.v[0] NameReply 8
19 fetch 0@18
20 turn 0@8 duty
21 post 0 3 top/c#1.frame[0] top/c#1.frame[0] registered 1
22 fetch 0@21
23 turn 0@11 duty
24 post 0 3 top/d#1.frame[0] top/d#1.frame[0] registered 1
25 fetch 0@24
26 turn 0@12 duty
27 turn 0@13 duty
28 turn 0@18 duty
29 post 0 3 top/e#1.frame[0] top/e#1.frame[0] nameRefused 1 8
30 fetch 0@29
31 turn 0@21 unhandled top/c#1 N
32 turn 0@24 unhandled top/d#1 N
33 turn 0@29 unhandled top/e#1 N
environment
done
";

/// Two service points that meet by a name, and a second provider of it, which is refused.
pub(crate) const NAMES: Case<'static> = Case {
    words: &["run", "model.room", "inject.txt"],
    model: NAMES_MODEL,
    injections: "",
    journals: NAMES_JOURNAL,
    failing_read: None,
    failing_write: None,
    failing_note: None,
    room: 10_000,
};
