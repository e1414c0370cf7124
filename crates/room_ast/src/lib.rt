//! The syntax trees of the model language, and what actions see of a class.
#![tactic(auto)]

mod actor;
mod chart;
mod lookup;
mod model;
pub mod model_parts;
mod name;
mod protocol;
mod scope;
mod system;
mod text;

pub use actor::{
    ActorClass, ActorRef, Behavior, Binding, ExternalPort, InterfaceItem, LayerConnection, Places,
    Port, ServiceAccess, ServiceImplementation, ServiceProvision, Side, StructureItem,
};
pub use chart::{
    Change, ChoicePoint, Code, CodeText, Event, EventMessage, GraphItem, Point, PointKind,
    Refinement, Source, State, StateBody, StateMachine, Target, Transition, TransitionBody,
    Trigger, Triggers,
};
pub use model::{Class, Dotted, Import, ImportSource, Model};
pub use model_parts::{PortEntry, ReferenceEntry, TypeEntry, number_type};
pub use name::Name;
pub use protocol::{
    Attribute, DataClass, DataItem, EmptyString, Message, Parameter, PlainValue, ProtocolClass,
    Usercode, UsercodeSection, Value,
};
pub use scope::{Scope, ScopeAttribute, ScopePort, ScopeReference, ScopeSignal};
pub use system::{
    LogicalThread, Mapping, MappingPath, Segment, Subsystem, SubsystemItem, SubsystemRef, System,
};
pub use text::Text;
