// The library that C and Rust link: every public call under one prefix, its answer a struct of numbers.
// A function for each field of each kind, and codes and places as numbers: C has no generics, and no enums with values.
#![tactic(auto)]

mod about;
mod calls;
mod device_identity;
mod endpoint_discovery;
mod endpoint_info;
mod endpoint_name;
mod function_block_info;
mod function_block_name;
mod named;
mod product_instance_id;
mod shared_names;
