mod caches;
mod clocks;
mod flights;
mod logs;
mod replicas;
