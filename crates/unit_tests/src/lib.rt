//! Tests of single crates: what a few calls of each answer.
#![tactic(auto)]

#[cfg(test)]
mod claims;
#[cfg(test)]
mod command_lines;
#[cfg(test)]
mod cycles;
#[cfg(test)]
mod dense_tables_tests;
#[cfg(test)]
mod drive_lines;
#[cfg(test)]
mod image_lines;
#[cfg(test)]
mod lane_scan_tests;
#[cfg(test)]
mod lines;
#[cfg(test)]
mod mem_flash_rows;
#[cfg(test)]
mod mem_flash_tests;
#[cfg(test)]
mod page_cache_tests;
#[cfg(test)]
mod page_record_tests;
#[cfg(test)]
mod picture_lines;
#[cfg(test)]
mod protocol_lines;
#[cfg(test)]
mod record_lists;
#[cfg(test)]
mod report_lines;
#[cfg(test)]
mod samples;
#[cfg(test)]
mod slot_tables_tests;
#[cfg(test)]
mod table_lines;
#[cfg(test)]
mod texts;
#[cfg(test)]
mod tx_types_tests;
