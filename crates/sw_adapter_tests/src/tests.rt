mod compact;
mod containers;
mod hashed;
mod pairs;
mod policy;
mod schemas;
mod wraps;
