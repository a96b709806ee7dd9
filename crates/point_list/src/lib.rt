//! Point lists and site files.
//!
//! `crates/tour/src/lists.rt` is a short example.
#![tactic(auto)]

mod agreeing;
mod columns;
mod device_names;
mod error;
mod items;
mod judge;
mod label;
pub mod laws;
mod list;
mod name;
mod naming;
mod point;
mod records;
mod resolving;
mod site;
mod site_error;
mod site_file;
mod text;
mod texts;

pub use device_names::SEARCHES_OF_A_SORT;
pub use error::{ListError, ListFault};
pub use items::Items;
pub use label::{Label, LabelError, is_ascii};
pub use list::{MOST_POINTS, read_list};
pub use name::{Name, NameError};
pub use naming::is_same_name;
pub use point::{ListRow, Point, Role, RoleError};
pub use resolving::{read_points, resolve};
pub use site::{Device, Line, MOST_DEVICES, MOST_LINES, MOST_OUTSTANDING, Site};
pub use site_error::{Quoted, SiteError, SiteFault, SitePlace};
pub use site_file::read_site;
pub use text::Text;
pub use toml_members::{MemberError, MemberFault};
