// Published cases, read from their print and compared through exported calls.
#![tactic(auto)]

mod fault;
mod function_case;
mod function_test;
mod inputs;
mod kernel_case;
mod label;
mod labelled;
mod opc_block;
mod opened;
mod outputs;
mod print;
mod sizes;
mod traced;
mod value;

pub use fault::{Fault, Misread};
pub use function_case::FunctionCase;
pub use function_test::{FunctionTest, function_tests_of};
pub use kernel_case::{Checked, KernelCase, KernelRun, kernel_cases_of};
pub use labelled::{Labelled, with_label};
pub use opc_block::OpcBlock;
pub use opened::Opened;
pub use outputs::output_label;
pub use sizes::CaseSizes;
pub use traced::{Trace, Traced};
